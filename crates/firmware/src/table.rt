// The walk, the pick, the two runs and a chain's steps over a table that is lent as a run of records, for C and Rust to call. They are
// thin over the same calls of `chain` and `board`, and mean the same as those on a table by value (Record 2); a lent table shorter than 32
// gets 1 (Size 4). No call copies the table.
// stays: memory, images and drives are each a parameter, and refusals are told by number, since C calls these (include/rosadenca.h)
ghost use Rattle.std.specs.Prelude.{◌≡◌, min};
ghost use Rattle.meaning.specs.Store.{lent, images};
ghost use Rattle.meaning.specs.Drives.{drives_of};
ghost use Rattle.meaning.specs.State.{most_commands, state_in};
ghost use Rattle.meaning.specs.Walk.{WalkGives};
ghost use Rattle.meaning.specs.Pick.{PickGives};
ghost use Rattle.meaning.specs.Run.{chain_steps, by_picks, as_written, RunGives};

use board::{pick, run};
use chain::walk;
use meaning::lends::{LentDisks, LentStore};
use meaning::refusals::number_of;
use meaning::{LentDrives, Ran, Record, Walked};

// The walk: records past the last command, and all of them on a refusal, are left alone (Walk 1 to 10, Record 7).
#[unsafe(no_mangle)]
pub extern "C" fn rosadenca_walk(
    memory: &[u8],
    image0: &[u8],
    image1: &[u8],
    image2: &[u8],
    image3: &[u8],
    drives: LentDrives,
    start: u32,
    table: &mut [Record],
) -> Walked
    ensures { WalkGives (drives_of drives) start (state_in (lent memory.now (images image0.now image1.now image2.now image3.now)) table.old) result table.new }
{
    let disks = LentDisks {
        image0,
        image1,
        image2,
        image3,
        drives,
    };
    walk::answer_of(walk::walk_into(memory, disks, start, table))
}

// A pick: on 0 one step at its place (Pick 1 to 7).
#[unsafe(no_mangle)]
pub extern "C" fn rosadenca_pick<'a>(
    memory: &'a mut [u8],
    image0: &'a mut [u8],
    image1: &'a mut [u8],
    image2: &'a mut [u8],
    image3: &'a mut [u8],
    drives: LentDrives,
    table: &'a mut [Record],
    commands: usize,
    place: usize,
) -> u8
    ensures { PickGives (drives_of drives) commands place (state_in (lent memory.old (images image0.old image1.old image2.old image3.old)) table.old) result (state_in (lent memory.new (images image0.new image1.new image2.new image3.new)) table.new) }
{
    let mut store = LentStore {
        memory,
        image0,
        image1,
        image2,
        image3,
        drives,
    };
    number_of(pick::pick(&mut store, table, commands, place))
}

// A run by picks: a refused pick is passed over, and counted (Run 1 to 4).
#[unsafe(no_mangle)]
pub extern "C" fn rosadenca_run_picks<'a>(
    memory: &'a mut [u8],
    image0: &'a mut [u8],
    image1: &'a mut [u8],
    image2: &'a mut [u8],
    image3: &'a mut [u8],
    drives: LentDrives,
    table: &'a mut [Record],
    commands: usize,
    picks: &'a [u8],
) -> Ran
    ensures { RunGives (drives_of drives) commands (by_picks (drives_of drives) commands picks.now) (state_in (lent memory.old (images image0.old image1.old image2.old image3.old)) table.old) result (state_in (lent memory.new (images image0.new image1.new image2.new image3.new)) table.new) }
{
    let mut store = LentStore {
        memory,
        image0,
        image1,
        image2,
        image3,
        drives,
    };
    run::run_picks(&mut store, table, commands, picks)
}

// A run as written within a step budget: always the earliest unfinished command (Run 5).
#[unsafe(no_mangle)]
pub extern "C" fn rosadenca_run_written<'a>(
    memory: &'a mut [u8],
    image0: &'a mut [u8],
    image1: &'a mut [u8],
    image2: &'a mut [u8],
    image3: &'a mut [u8],
    drives: LentDrives,
    table: &'a mut [Record],
    commands: usize,
    budget: u64,
) -> Ran
    ensures { RunGives (drives_of drives) commands (as_written (drives_of drives) commands budget) (state_in (lent memory.old (images image0.old image1.old image2.old image3.old)) table.old) result (state_in (lent memory.new (images image0.new image1.new image2.new image3.new)) table.new) }
{
    let mut store = LentStore {
        memory,
        image0,
        image1,
        image2,
        image3,
        drives,
    };
    run::run_written(&mut store, table, commands, budget)
}

// The steps of a chain, from its start: the sum of the steps of its commands, of 32 at most and of no more than the table has (Run 6).
#[unsafe(no_mangle)]
pub extern "C" fn rosadenca_chain_steps(table: &[Record], commands: usize) -> u64
    ensures { result ≡ chain_steps table.now (min commands most_commands) }
{
    run::chain_steps(table, commands)
}
