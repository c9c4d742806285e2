// Whether a record may stand in a table in use: number 9 is given for one that may not (Spoiled 2 to 7 and 9 to 11). What is asked of a
// command's data is told by its hull, so that a list is gone through once. `memory` is how many bytes memory has.
ghost use Rattle.std.specs.Prelude.{◌≡◌, true};
ghost use Rattle.meaning.specs.Command.{transfers};
ghost use Rattle.units.specs.Rooms.{room_of};
ghost use Rattle.command.specs.Data.{bad_data, bad_move, bad_by};
ghost use Rattle.command.specs.Look.{may_block, judged_as, looked_as};

use crate::hulled::Hulled;
use crate::touch;
use crate::touch::Footprint;
use chain::links;
use meaning::Record;
use units::rooms;
use units::rooms::{Room, Rooms};

impl Hulled<'_> {
    // Data outside memory, or ranges that do not add up to the sectors, or are more than a record can hold (Spoiled 5, 9 and 10). Without a
    // list there is one range, which is as long as the sectors are.
    #[tactic(auto, unfolding(crate::specs::Data::bad_data))]
    fn bad_data(&self, memory: u64) -> bool
        requires { transfers self.now.r.now ≡ true }
        ensures { result ≡ bad_data memory self.now.r.now }
    {
        let r = self.r;
        if memory < self.hull.high as u64 {
            return true;
        }
        if r.ranges == 0 {
            return false;
        }
        if links::MOST_LINKS < r.ranges {
            return true;
        }
        self.hull.bytes != drive::SECTOR_BYTES as u32 * r.count as u32
    }

    // A transfer with count zero, with bad data, with sectors that its unit has not, as an absent one has none, or writing to a protected drive
    // (Spoiled 4 to 7 and 9 to 11).
    #[tactic(auto, unfolding(crate::specs::Data::bad_move))]
    fn bad_transfer(&self, memory: u64, room: Room) -> bool
        requires { transfers self.now.r.now ≡ true }
        ensures { result ≡ bad_move memory room self.now.r.now }
    {
        let r = self.r;
        r.count == 0
            || self.bad_data(memory)
            || ends::goes_past(room.sectors.0, r.sector, r.count as u32)
            || (room.protected && crate::writes(*r))
    }

    // A record that no table in use may hold, by the room of its own unit. Its kind is asked once, before its steps.
    #[tactic(auto, unfolding(crate::specs::Data::bad_by, meaning::specs::Command::steps_of))]
    fn bad(&self, memory: u64, room: Room) -> bool
        ensures { result ≡ bad_by memory room self.now.r.now }
    {
        let r = self.r;
        if memory < r.iopb as u64 + iopb::IOPB_BYTES as u64 {
            return true;
        }
        if crate::transfers(*r) {
            if (r.count as u32) < r.taken {
                return true;
            }
            return self.bad_transfer(memory, room);
        }
        1 < r.taken
    }

    // The same by the rooms of all units.
    fn bad_among(&self, memory: u64, rooms: Rooms) -> bool
        ensures { result ≡ bad_by memory (room_of rooms self.now.r.now.unit) self.now.r.now }
    {
        self.bad(memory, rooms::room_of(rooms, self.r.unit))
    }

    // Whether its command may block one whose footprint is `wanted`: it is earlier, it is unfinished, and their footprints meet.
    #[tactic(auto, unfolding(crate::specs::Look::may_block))]
    fn may_block(&self, wanted: Footprint, earlier: bool) -> bool
        ensures { result ≡ may_block self.now.r.now wanted earlier }
    {
        earlier && !crate::finished(*self.r) && touch::footprints_meet(self.footprint(), wanted)
    }
}

// A record that no table in use may hold, by the room of its own unit.
pub fn bad_record(memory: u64, room: Room, r: &Record) -> bool
    ensures { result ≡ bad_by memory room r.now }
{
    Hulled::of(r).bad(memory, room)
}

// What is said of a record before any step: its footprint, and whether it is bad.
// stays: both parts are told of every record, so neither an Option nor a Result says this.
#[derive(Clone, Copy)]
pub struct Judged {
    pub footprint: Footprint,
    pub bad: bool,
}

// A record's footprint, and whether the record is bad, from one way through its list.
pub fn judge(memory: u64, rooms: Rooms, r: &Record) -> Judged
    ensures { result ≡ judged_as memory rooms r.now }
{
    let record = Hulled::of(r);
    Judged {
        footprint: record.footprint(),
        bad: record.bad_among(memory, rooms),
    }
}

// What a pick sees of a record: whether it is bad, and whether it may block the picked command.
// stays: both parts are told of every record, so neither an Option nor a Result says this.
#[derive(Clone, Copy)]
pub struct Looked {
    pub bad: bool,
    pub near: bool,
}

// A record, as a pick sees it that wants to go to a command with the footprint `wanted`.
pub fn look(memory: u64, rooms: Rooms, r: &Record, wanted: Footprint, earlier: bool) -> Looked
    ensures { result ≡ looked_as memory rooms r.now wanted earlier }
{
    let record = Hulled::of(r);
    Looked {
        bad: record.bad_among(memory, rooms),
        near: record.may_block(wanted, earlier),
    }
}
