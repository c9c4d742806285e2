// Number 1 of every call: memory or an image of a wrong size.
ghost use Rattle.std.specs.Prelude.{◌≡◌};
ghost use Rattle.meaning.specs.Store.{lent};
ghost use Rattle.meaning.specs.Lends.{images_of};
ghost use Rattle.meaning.specs.Drives.{drives_of};
ghost use Rattle.meaning.specs.Sizes.{store_wrong};

use meaning::lends::LentDisks;

// The most bytes that host memory may have.
pub const MEMORY_LIMIT: usize = 65_536;

// Memory is over its limit, or some unit that is there has an image over its limit or not of its drive's size, or a drive that cannot be. A
// table by value is never too short.
#[tactic(auto, unfolding(meaning::specs::Sizes::store_wrong))]
pub fn sizes_wrong(memory: &[u8], disks: LentDisks<'_>) -> bool
    ensures { result ≡ store_wrong (drives_of disks.entry.drives) (lent memory.now (images_of disks.entry)) }
{
    MEMORY_LIMIT < memory.len() || units::images_wrong(disks)
}
