// The units: which drive each has, whether the images of those that are there have the right sizes, how much room each has, and a look at
// one sector of a unit. Nothing of what is lent for an absent unit is looked at.
#![tactic(auto)]

pub mod look;
pub mod rooms;

ghost use Rattle.std.specs.Prelude.{◌≡◌, not, ◌&&◌, List, ℕ};
ghost use Rattle.meaning.specs.Store.{lent};
ghost use Rattle.meaning.specs.Lends.{images_of};
ghost use Rattle.meaning.specs.Sectors.{image_right};
ghost use Rattle.meaning.specs.Drives as drives;
ghost use Rattle.meaning.specs.Sizes.{images_wrong};
ghost use Rattle.units.specs.OfUnit.{of_unit};

use meaning::lends::LentDisks;
use meaning::{Drive, LentDrives};

// A drive, if it is there; an absent unit counts as one with all maxima 0, and open.
fn there(d: Drive) -> Drive
    ensures { result ≡ drives.there d }
{
    if d.present { d } else { Drive::default() }
}

// A unit's own of what the units 0 to 3 have, or what is told of a unit above 3. It is found by comparing and not by an index, so that the
// compiler keeps four drives in registers.
fn of_unit<T: Copy>(unit: u8, own: [T; 4], above: T) -> T
    ensures { result ≡ of_unit own above unit }
{
    match unit {
        0 => own[0],
        1 => own[1],
        2 => own[2],
        3 => own[3],
        _ => above,
    }
}

// The drive of a unit.
pub fn drive_of(l: LentDrives, unit: u8) -> Drive
    ensures { result ≡ drives.drive_of l unit }
{
    there(of_unit(unit, l.units, Drive::default()))
}

// A unit is there, and its image of so many bytes is over its limit or not of the drive's size, or the drive cannot be.
fn unit_wrong(l: LentDrives, unit: u8, bytes: u64) -> bool
    ensures { result ≡ ((drives.drive_of l unit).present && not (image_right (drives.drive_of l unit) bytes)) }
{
    let d = drive_of(l, unit);
    d.present && !drive::image_right(d, bytes)
}

// Some unit is such a one. Memory has no say in it.
pub fn images_wrong(disks: LentDisks<'_>) -> bool
    ensures { (m : List ℕ) → result ≡ images_wrong (drives.drives_of disks.entry.drives) (lent m (images_of disks.entry)) }
{
    let units = [
        (0, disks.image0.len() as u64),
        (1, disks.image1.len() as u64),
        (2, disks.image2.len() as u64),
        (3, disks.image3.len() as u64),
    ];
    units
        .iter()
        .any(|&(unit, bytes)| unit_wrong(disks.drives, unit, bytes))
}
