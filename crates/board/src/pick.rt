// A pick on a lent table: the numbers 1, 9, 8, 7, 6 in that order (Pick 2 to 7), and where none of them is given one step at its place. What
// is seen of the table is told to the tests that are left, in a `Sight`; `pick_seen` takes one from its caller, and has no table.
ghost use Rattle.std.specs.Prelude.{◌≡◌, ◌≤◌, ◌<◌, length, get_or, take};
ghost use Rattle.meaning.specs.Refusals.{told};
ghost use Rattle.meaning.specs.Lends.{store_of, SameLent};
ghost use Rattle.meaning.specs.Drives.{drives_of};
ghost use Rattle.meaning.specs.State.{state_in};
ghost use Rattle.meaning.specs.Command.{no_record};
ghost use Rattle.meaning.specs.Pick.{PickGives};
ghost use Rattle.board.specs.Sight.{looked_over};
ghost use Rattle.board.specs.Seen.{place_seen, Unspoiled, PickSees, picked_taken};

use crate::{RECORDS, step, table};
use command::{sound, touch};
use meaning::lends::LentStore;
use meaning::refusals::Refusal;
use meaning::{LentDrives, Record};
use units::rooms;

// What a pick sees of its table beside the record at its place: whether a record in use is bad, and whether an earlier unfinished command
// conflicts with the one at its place.
#[derive(Clone, Copy)]
pub struct Sight {
    pub bad: bool,
    pub blocked: bool,
}

// The place whose record a pick looks at: its own, or the first where a table has no such place, which then gets 8 or 9.
pub fn place_seen(place: usize) -> usize
    ensures { result ≡ place_seen place }
{
    if place < RECORDS { place } else { 0 }
}

// Whether an earlier command in use makes the one at this place wait; a bad record among those in use refuses the pick. The ranges of two
// commands are tested only where their footprints meet.
fn look_over(
    table: &[Record],
    commands: usize,
    place: usize,
    memory: u64,
    drives: LentDrives,
) -> Result<bool, Refusal>
    requires { (commands ≤ length table.now) × (place < length table.now) }
    ensures { result ≡ looked_over memory (drives_of drives) (get_or table.now place no_record) place (take commands table.now) }
{
    let wanted = &table[place];
    let rooms = rooms::rooms_of(drives);
    let footprint = touch::footprint_of(wanted);
    let mut waits = false;
    for (k, r) in table[..commands].iter().enumerate() {
        let seen = sound::look(memory, rooms, r, footprint, k < place);
        if seen.bad {
            return Err(Refusal::Spoiled);
        }
        waits |= seen.near && touch::ranges_conflict(r, wanted);
    }
    Ok(waits)
}

// Past 1 and 9: the tests of the place, of its record and of what was seen, 8, 7 and 6, and where none of them is given its step. How many
// steps are taken of the command then. The whole record is read, so that its count is known to be one of 16 bits.
fn step_seen(
    store: &mut LentStore<'_>,
    r: &Record,
    seen: Sight,
    commands: usize,
    place: usize,
) -> Result<u32, Refusal>
    requires { Unspoiled (drives_of store.old.drives) commands place r.now seen (store_of store.old) }
    ensures same { SameLent store.old store.new }
    ensures sees { PickSees (drives_of store.old.drives) commands place r.now seen (store_of store.old) (picked_taken result) (store_of store.new) }
{
    let before = *r;
    if commands <= place {
        return Err(Refusal::NoPlace);
    }
    if command::finished(before) {
        return Err(Refusal::Finished);
    }
    if seen.blocked {
        return Err(Refusal::Waits);
    }
    step::take_steps(store, r, 1);
    Ok(before.taken + 1)
}

// A pick by the record at its place, and by what else is seen of a table of 32 records or more: how many steps are taken of the command
// then. A bad record there is refused here too, whatever was seen, since a public function asks nothing of its caller.
pub fn pick_seen(
    store: &mut LentStore<'_>,
    r: &Record,
    seen: Sight,
    commands: usize,
    place: usize,
) -> Result<u32, Refusal>
    ensures same { SameLent store.old store.new }
    ensures sees { PickSees (drives_of store.old.drives) commands place r.now seen (store_of store.old) (picked_taken result) (store_of store.new) }
{
    if table::wrong_store(store) {
        return Err(Refusal::WrongSize);
    }
    if RECORDS < commands || seen.bad {
        return Err(Refusal::Spoiled);
    }
    if place < commands && !command::finished(*r) && !seen.blocked {
        let room = rooms::room_in(units::drive_of(store.drives, r.unit));
        if sound::bad_record(store.memory.len() as u64, room, r) {
            return Err(Refusal::Spoiled);
        }
    }
    step_seen(store, r, seen, commands, place)
}

// A pick: one step at its place, or nothing is changed.
pub fn pick(
    store: &mut LentStore<'_>,
    table: &mut [Record],
    commands: usize,
    place: usize,
) -> Result<(), Refusal>
    ensures same { SameLent store.old store.new }
    ensures gives { PickGives (drives_of store.old.drives) commands place (state_in (store_of store.old) table.old) (told result) (state_in (store_of store.new) table.new) }
{
    if table::wrong_size(store, table) {
        return Err(Refusal::WrongSize);
    }
    if RECORDS < commands {
        return Err(Refusal::Spoiled);
    }
    let at = place_seen(place);
    let memory = store.memory.len() as u64;
    let blocked = look_over(table, commands, at, memory, store.drives)?;
    let seen = Sight {
        bad: false,
        blocked,
    };
    let taken = step_seen(store, &table[at], seen, commands, place)?;
    table[at] = table::with_taken(table[at], taken);
    Ok(())
}
