// What the calls ask of a caller's table, and what they write into it: the steps taken of a record.
ghost use Rattle.std.specs.Prelude.{◌≡◌, ◌≤◌, false, length};
ghost use Rattle.meaning.specs.Lends.{store_of};
ghost use Rattle.meaning.specs.Drives.{drives_of};
ghost use Rattle.meaning.specs.State.{state_in, most_commands};
ghost use Rattle.meaning.specs.Sizes.{store_wrong, sizes_wrong};
ghost use Rattle.meaning.specs.Command.{remaining};
ghost use Rattle.meaning.specs.Step.{with_taken};
ghost use Rattle.meaning.specs.Run.{advanced};

use crate::RECORDS;
use chain::sizes;
use meaning::Record;
use meaning::lends::LentStore;

// Number 1 of what is lent beside the table: memory or an image of a wrong size.
pub(crate) fn wrong_store(store: &LentStore<'_>) -> bool
    ensures { result ≡ store_wrong (drives_of store.now.drives) (store_of store.now) }
{
    sizes::sizes_wrong(store.memory, store.disks())
}

// Number 1: memory or an image of a wrong size, or a table that is too short.
#[tactic(auto, unfolding(meaning::specs::Sizes::sizes_wrong))]
pub(crate) fn wrong_size(store: &LentStore<'_>, table: &[Record]) -> bool
    ensures value { result ≡ sizes_wrong (drives_of store.now.drives) (state_in (store_of store.now) table.now) }
    ensures long { result ≡ false → most_commands ≤ length table.now }
{
    wrong_store(store) || table.len() < RECORDS
}

// The same command with so many steps taken.
#[tactic(auto, unfolding(meaning::specs::Step::with_taken))]
pub fn with_taken(r: Record, taken: u32) -> Record
    ensures { result ≡ with_taken taken r }
{
    Record { taken, ..r }
}

// n more steps are taken of a command. The whole record is read, so that its count is known to be one of 16 bits.
pub(crate) fn advance(r: &mut Record, n: u32)
    requires { n ≤ remaining r.old }
    ensures { r.new ≡ advanced n r.old }
{
    let before = *r;
    r.taken = before.taken + n;
}
