// A look at a sector of a unit, for C and Rust to call (Look 1 to 7): an exported function cannot hand back a part of what it was lent, so the
// part is named by its place in the unit's image and its length.
// stays: images and drives are each a parameter, refusals are told by number, and no part is an empty one, since C calls these
ghost use Rattle.std.specs.Prelude.{◌≡◌, []};
ghost use Rattle.meaning.specs.Store.{lent, images};
ghost use Rattle.meaning.specs.Drives.{drives_of};
ghost use Rattle.meaning.specs.Look.{look_number, looked_part};

use meaning::lends::LentDisks;
use meaning::refusals::number_of;
use meaning::{LentDrives, Part};
use units::look;

// The number of a look: 1 for an image of a wrong size, then 11 for an absent unit, then 10 for no such sector, otherwise 0.
#[unsafe(no_mangle)]
pub extern "C" fn rosadenca_look_number(
    image0: &[u8],
    image1: &[u8],
    image2: &[u8],
    image3: &[u8],
    drives: LentDrives,
    unit: u8,
    sector: u32,
) -> u8
    ensures { result ≡ look_number (drives_of drives) unit sector (lent [] (images image0.now image1.now image2.now image3.now)) }
{
    let disks = LentDisks {
        image0,
        image1,
        image2,
        image3,
        drives,
    };
    number_of(look::look_number(disks, unit, sector))
}

// Where the sector's 512 bytes are in the unit's image; an empty part exactly where the look's number is not 0.
#[unsafe(no_mangle)]
pub extern "C" fn rosadenca_look(
    image0: &[u8],
    image1: &[u8],
    image2: &[u8],
    image3: &[u8],
    drives: LentDrives,
    unit: u8,
    sector: u32,
) -> Part
    ensures { result ≡ looked_part (drives_of drives) unit sector (lent [] (images image0.now image1.now image2.now image3.now)) }
{
    let disks = LentDisks {
        image0,
        image1,
        image2,
        image3,
        drives,
    };
    match look::look_number(disks, unit, sector) {
        Ok(()) => Part {
            at: drive::SECTOR_BYTES as usize * sector as usize,
            length: drive::SECTOR_BYTES as usize,
        },
        Err(_) => Part { at: 0, length: 0 },
    }
}
