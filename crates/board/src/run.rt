// The two runs: by a lent list of picks, and as written within a step budget. Numbers 1 and 9 are tested once, before anything moves
// (Run 8). The table is the caller's own, and only the steps taken are written into it.
ghost use Rattle.std.specs.Prelude.{◌≡◌, ◌≤◌, ◌<◌, ℕ, suc, IfOk, false, true, eqb, get_or, length, min, set, take};
ghost use Rattle.std.specs.List.{sum_by};
ghost use Rattle.meaning.specs.Each.{every_of, some_of};
ghost use Rattle.meaning.specs.Lends.{store_of, SameLent};
ghost use Rattle.meaning.specs.Drives.{drives_of};
ghost use Rattle.meaning.specs.State.{state_in, most_commands};
ghost use Rattle.meaning.specs.Command as command;
ghost use Rattle.meaning.specs.Pick.{place_number};
ghost use Rattle.meaning.specs.Refusals.{told};
ghost use Rattle.meaning.specs.Run as run;
ghost use Rattle.command.specs.Footprints.{footprint_of};
ghost use Rattle.board.specs.RunAnswers.{refused_run, accepted_run};
ghost use Rattle.board.specs.Ready.{ReadyIn};
ghost use Rattle.board.specs.Sight.{blocking};
ghost use Rattle.board.specs.Watching.{no_watch, Watching};
ghost use Rattle.board.specs.Together.{together};

use crate::{RECORDS, step, table};
use command::touch::Footprint;
use command::{sound, touch};
use meaning::lends::LentStore;
use meaning::refusals::Refusal;
use meaning::{Ran, Record};
use units::rooms;

// What a run by picks keeps of a command beside its record: what it touches, which no step changes, and how many earlier commands are known
// not to block it. A command only ever comes nearer to its end, so one that once did not block a place never blocks it again. It fills 64
// bytes, so that an element's place is found by a shift, and by no product that is wider than 32 bits (Drive 8).
#[derive(Clone, Copy, Default)]
struct Watch {
    footprint: Footprint,
    searched: usize,
    // nothing looks at it
    unused: [u64; 3],
}

// Numbers 1 and 9, which both runs test first. Where neither is given all footprints of the commands are known: the list of a command is
// gone through once for both.
fn opening(
    store: &LentStore<'_>,
    table: &[Record],
    commands: usize,
) -> Result<[Watch; RECORDS], Refusal>
    ensures number { told result ≡ run.run_number (drives_of store.now.drives) commands (state_in (store_of store.now) table.now) }
    ensures watching { IfOk result (λ watches. Watching commands table.now watches) }
{
    if table::wrong_size(store, table) {
        return Err(Refusal::WrongSize);
    }
    if RECORDS < commands {
        return Err(Refusal::Spoiled);
    }
    let size = store.memory.len() as u64;
    let rooms = rooms::rooms_of(store.drives);
    let mut watches = [Watch::default(); RECORDS];
    for (place, r) in table[..commands].iter().enumerate() {
        let judged = sound::judge(size, rooms, r);
        if judged.bad {
            return Err(Refusal::Spoiled);
        }
        watches[place].footprint = judged.footprint;
    }
    Ok(watches)
}

// A refusal: zero counts and "not finished".
pub fn refused(number: u8) -> Ran
    ensures { result ≡ refused_run number }
{
    Ran {
        steps: 0,
        refused: 0,
        number,
        finished: false,
    }
}

// All of these commands are finished.
fn all_finished(records: &[Record]) -> bool
    ensures { result ≡ every_of command.finished records.now }
{
    records.iter().all(|r| command::finished(*r))
}

// The answer of a run that was not refused, by its counts and the commands as it leaves them.
fn accepted(steps: u64, refused: u64, records: &[Record]) -> Ran
    ensures { result ≡ accepted_run steps refused (every_of command.finished records.now) }
{
    Ran {
        steps,
        refused,
        number: 0,
        finished: all_finished(records),
    }
}

// The steps of these commands, from their start.
fn steps_of_all(records: &[Record]) -> u64
    requires { length records.now ≤ most_commands }
    ensures { result ≡ sum_by command.steps_of records.now }
{
    records
        .iter()
        .map(|r| u64::from(command::steps_of(*r)))
        .sum()
}

// The steps of a chain, from its start: the sum of the steps of its commands, of 32 at most and of no more than the table has (Run 6).
pub fn chain_steps(table: &[Record], commands: usize) -> u64
    ensures { result ≡ run.chain_steps table.now (min commands most_commands) }
{
    let last = commands.min(RECORDS).min(table.len());
    steps_of_all(&table[..last])
}

// The command at a place takes the steps that are left of it, but no more than so many: how many it took.
fn take_within(store: &mut LentStore<'_>, table: &mut [Record], place: usize, most: u64) -> u32
    requires { (place < length table.old) × ((n : ℕ) → n ≤ command.remaining (get_or table.old place command.no_record) → ReadyIn n (get_or table.old place command.no_record) (store_of store.old)) }
    ensures same { SameLent store.old store.new }
    ensures many { result ≡ min most (command.remaining (get_or table.old place command.no_record)) }
    ensures record { table.new ≡ set table.old place (run.advanced result (get_or table.old place command.no_record)) }
    ensures moved { store_of store.new ≡ run.steps_done (drives_of store.old.drives) result (get_or table.old place command.no_record) (store_of store.old) }
{
    let n = most.min(u64::from(command::remaining(table[place]))) as u32;
    step::take_steps(store, &table[place], n);
    table::advance(&mut table[place], n);
    n
}

// An earlier command blocks a later one: it is unfinished, and they conflict. Only where their footprints meet are their ranges tested.
fn blocks(earlier: &Record, touched: Footprint, later: &Record, wanted: Footprint) -> bool
    requires { (touched ≡ footprint_of earlier.now) × (wanted ≡ footprint_of later.now) }
    ensures { result ≡ blocking later.now earlier.now }
{
    earlier.taken < touched.steps
        && touch::footprints_meet(touched, wanted)
        && touch::ranges_conflict(earlier, later)
}

// The search for an earlier command that blocks the one at a place goes on where the last one at this place stopped: how far it gets, which
// is to the place itself where nothing blocks it.
fn search_on(table: &[Record], watches: &[Watch], place: usize) -> usize
    requires { (place < most_commands) × (most_commands ≤ length table.now) × Watching (suc place) table.now watches.now }
    ensures far { result ≤ place }
    ensures passed { some_of (blocking (get_or table.now place command.no_record)) (take result table.now) ≡ false }
    ensures stopped { result < place → blocking (get_or table.now place command.no_record) (get_or table.now result command.no_record) ≡ true }
{
    let wanted = watches[place];
    for earlier in wanted.searched..place {
        let touched = watches[earlier].footprint;
        if blocks(&table[earlier], touched, &table[place], wanted.footprint) {
            return earlier;
        }
    }
    place
}

// The command at a place may take a step: it is in use, it is not finished, and no earlier one blocks it.
fn may_go(table: &[Record], watches: &mut [Watch], commands: usize, place: usize) -> bool
    requires { (commands ≤ most_commands) × (most_commands ≤ length table.now) × Watching commands table.now watches.old }
    ensures free { result ≡ eqb (place_number table.now commands place) 0 }
    ensures watching { Watching commands table.now watches.new }
{
    if commands <= place || command::finished(table[place]) {
        return false;
    }
    let searched = search_on(table, watches, place);
    watches[place].searched = searched;
    searched == place
}

// Two picks next to each other are taken together: they name one place, where all places that the chain has not count as one. That is one
// comparison, which always holds among picks of no place: a branch on whether they are equal is slow where they come in no order.
fn together(commands: usize, a: u8, b: u8) -> bool
    ensures { result ≡ together commands a b }
{
    usize::from(a).min(commands) == usize::from(b).min(commands)
}

// A run by picks: a refused pick is passed over, and counted; on 1 and 9 nothing is changed. Picks in a row at one place are taken together:
// where the first of them may go, so may all that follow until the command is finished, and where it has to be passed over, so have all. So
// are those in a row at places that the chain has not, which are all passed over.
pub fn run_picks(
    store: &mut LentStore<'_>,
    table: &mut [Record],
    commands: usize,
    picks: &[u8],
) -> Ran
    ensures same { SameLent store.old store.new }
    ensures gives { run.RunGives (drives_of store.old.drives) commands (run.by_picks (drives_of store.old.drives) commands picks.now) (state_in (store_of store.old) table.old) result (state_in (store_of store.new) table.new) }
{
    let mut watches = match opening(store, table, commands) {
        Ok(watches) => watches,
        Err(refusal) => return refused(u8::from(refusal)),
    };
    let mut steps: u64 = 0;
    for alike in picks.chunk_by(|a, b| together(commands, *a, *b)) {
        let place = usize::from(alike[0]);
        if may_go(table, &mut watches, commands, place) {
            steps += u64::from(take_within(store, table, place, alike.len() as u64));
        }
    }
    accepted(steps, picks.len() as u64 - steps, &table[..commands])
}

// A run as written, within a step budget: each command in turn as far as the budget goes, always the earliest unfinished one (Run 5). On 1
// and 9 nothing is changed.
pub fn run_written(
    store: &mut LentStore<'_>,
    table: &mut [Record],
    commands: usize,
    budget: u64,
) -> Ran
    ensures same { SameLent store.old store.new }
    ensures gives { run.RunGives (drives_of store.old.drives) commands (run.as_written (drives_of store.old.drives) commands budget) (state_in (store_of store.old) table.old) result (state_in (store_of store.new) table.new) }
{
    if let Err(refusal) = opening(store, table, commands) {
        return refused(u8::from(refusal));
    }
    let mut left = budget;
    for at in 0..commands {
        left -= u64::from(take_within(store, table, at, left));
    }
    accepted(budget - left, 0, &table[..commands])
}
