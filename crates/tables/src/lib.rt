// The forms by value: a pick and both runs on a table that goes in and comes back by value. `board` has them on a lent table.
#![tactic(auto)]

ghost use Rattle.std.specs.Prelude.{◌≡◌};
ghost use Rattle.meaning.specs.Refusals.{told};
ghost use Rattle.meaning.specs.Lends.{store_of, SameLent};
ghost use Rattle.meaning.specs.Drives.{drives_of};
ghost use Rattle.meaning.specs.State.{state_in};
ghost use Rattle.meaning.specs.Bench.{no_records};
ghost use Rattle.meaning.specs.Pick.{PickGives};
ghost use Rattle.meaning.specs.Run.{RunGives, by_picks, as_written};

use board::run;
use meaning::lends::LentStore;
use meaning::refusals::Refusal;
use meaning::{Ran, Record, WithTable};

// A table that holds no command yet.
pub fn no_records() -> [Record; 32]
    ensures { result ≡ no_records }
{
    [Record::default(); 32]
}

// A pick on a table by value: one step at its place, or nothing is changed.
pub fn pick(
    store: &mut LentStore<'_>,
    table: [Record; 32],
    commands: usize,
    place: usize,
) -> WithTable<Result<(), Refusal>>
    ensures same { SameLent store.old store.new }
    ensures gives { PickGives (drives_of store.old.drives) commands place (state_in (store_of store.old) table) (told result.answer) (state_in (store_of store.new) result.table) }
{
    let mut table = table;
    let answer = board::pick::pick(store, &mut table, commands, place);
    WithTable { answer, table }
}

// A run by picks on a table by value: a refused pick is passed over, and counted. On 1 and 9 nothing is changed.
pub fn run_picks(
    store: &mut LentStore<'_>,
    table: [Record; 32],
    commands: usize,
    picks: &[u8],
) -> WithTable<Ran>
    ensures same { SameLent store.old store.new }
    ensures gives { RunGives (drives_of store.old.drives) commands (by_picks (drives_of store.old.drives) commands picks.now) (state_in (store_of store.old) table) result.answer (state_in (store_of store.new) result.table) }
{
    let mut table = table;
    let answer = run::run_picks(store, &mut table, commands, picks);
    WithTable { answer, table }
}

// A run as written on a table by value, within a step budget. On 1 and 9 nothing is changed.
pub fn run_written(
    store: &mut LentStore<'_>,
    table: [Record; 32],
    commands: usize,
    budget: u64,
) -> WithTable<Ran>
    ensures same { SameLent store.old store.new }
    ensures gives { RunGives (drives_of store.old.drives) commands (as_written (drives_of store.old.drives) commands budget) (state_in (store_of store.old) table) result.answer (state_in (store_of store.new) result.table) }
{
    let mut table = table;
    let answer = run::run_written(store, &mut table, commands, budget);
    WithTable { answer, table }
}
