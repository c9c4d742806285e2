// The place of a sector's number on a drive, for C and Rust to call (Place 3 to 8).
ghost use Rattle.std.specs.Prelude.{◌≡◌};
ghost use Rattle.meaning.specs.Place.{placed};

use meaning::{Drive, Placed};

// stays: a number beside the place, since C is handed it so
// The place, with its number: 1 for a drive that cannot be, then 10 for a number that the drive has not, otherwise 0.
#[unsafe(no_mangle)]
pub extern "C" fn rosadenca_place(drive: Drive, sector: u32) -> Placed
    ensures { result ≡ placed drive sector }
{
    drive::place_of(drive, sector)
}
