// What a caller lends to a call, beside its table: host memory, and the images of the units 0 to 3 with their drives.
ghost use Rattle.std.specs.Prelude.{◌≡◌};
ghost use Rattle.meaning.specs.Lends.{disks_of};

use crate::LentDrives;

// The images of the units 0 to 3, lent to be read, and their drives.
#[derive(Clone, Copy)]
pub struct LentDisks<'a> {
    pub image0: &'a [u8],
    pub image1: &'a [u8],
    pub image2: &'a [u8],
    pub image3: &'a [u8],
    pub drives: LentDrives,
}

// Host memory and the images of the units 0 to 3, lent to be changed, and their drives.
#[derive(Drop)]
pub struct LentStore<'a> {
    pub memory: &'a mut [u8],
    pub image0: &'a mut [u8],
    pub image1: &'a mut [u8],
    pub image2: &'a mut [u8],
    pub image3: &'a mut [u8],
    pub drives: LentDrives,
}

impl<'a> LentStore<'a> {
    // The images with their drives, to be read.
    pub fn disks(&self) -> LentDisks<'_>
        ensures { disks_of result self.now }
    {
        LentDisks {
            image0: self.image0,
            image1: self.image1,
            image2: self.image2,
            image3: self.image3,
            drives: self.drives,
        }
    }
}
