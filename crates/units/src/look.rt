// A look at one sector of a unit: the sector's own bytes in the unit's image, and the number that says why there are none.
ghost use Rattle.std.specs.Prelude.{◌≡◌, []};
ghost use Rattle.meaning.specs.Store.{lent};
ghost use Rattle.meaning.specs.Lends.{images_of};
ghost use Rattle.meaning.specs.Refusals.{told};
ghost use Rattle.meaning.specs.Drives.{drives_of};
ghost use Rattle.meaning.specs.Look.{look_number, looked_part, image_of, IsAll, IsPart};

use crate::{drive_of, of_unit};
use meaning::lends::LentDisks;
use meaning::refusals::Refusal;

// The number of a look: 1 for an image of a wrong size, be it of this unit or of another, then 11 for an absent unit, then 10 for no such
// sector, otherwise 0.
pub fn look_number(disks: LentDisks<'_>, unit: u8, sector: u32) -> Result<(), Refusal>
    ensures { told result ≡ look_number (drives_of disks.entry.drives) unit sector (lent [] (images_of disks.entry)) }
{
    if crate::images_wrong(disks) {
        return Err(Refusal::WrongSize);
    }
    let d = drive_of(disks.drives, unit);
    if !d.present {
        return Err(Refusal::NoUnit);
    }
    if drive::above(drive::largest(d), sector) {
        return Err(Refusal::NoSector);
    }
    Ok(())
}

// The image of a unit, itself; where there is no such unit the first one, of which nothing is handed back.
fn image_of<'a>(disks: LentDisks<'a>, unit: u8) -> &'a [u8]
    ensures { IsAll (image_of unit disks.entry.image0 disks.entry.image1 disks.entry.image2 disks.entry.image3) result }
{
    let images = [disks.image0, disks.image1, disks.image2, disks.image3];
    of_unit(unit, images, disks.image0)
}

// The sector's 512 bytes of the unit's image itself, or an empty part exactly where its number is not 0: which bytes of which lent run these
// are is part of what is promised.
pub fn look<'a>(disks: LentDisks<'a>, unit: u8, sector: u32) -> &'a [u8]
    ensures { IsPart (looked_part (drives_of disks.entry.drives) unit sector (lent [] (images_of disks.entry))) (image_of unit disks.entry.image0 disks.entry.image1 disks.entry.image2 disks.entry.image3) result }
{
    let image = image_of(disks, unit);
    let Ok(()) = look_number(disks, unit, sector) else {
        return &image[..0];
    };
    let start = drive::SECTOR_BYTES as usize * sector as usize;
    let end = start + drive::SECTOR_BYTES as usize;
    &image[start..end]
}
