// How much room each unit has: its sectors, and whether they may be written. It is worked out once for all records of a table, so that number
// 9 multiplies nothing out for each of them.
ghost use Rattle.std.specs.Prelude.{◌≡◌};
ghost use Rattle.meaning.specs.Drives.{drives_of};
ghost use Rattle.units.specs.Rooms.{room_in, rooms_of, room_of};

use crate::of_unit;
use meaning::{Count, Drive, LentDrives};

// What a unit has: how many sectors, none where it is absent, and its write-protect mark.
#[derive(Clone, Copy)]
pub struct Room {
    pub sectors: Count,
    pub protected: bool,
}

// The rooms of the units 0 to 3.
#[derive(Clone, Copy)]
pub struct Rooms {
    pub units: [Room; 4],
}

// An absent unit has no sector.
const NO_ROOM: Room = Room {
    sectors: Count(0),
    protected: false,
};

// The room on a drive, if it is there.
pub fn room_in(d: Drive) -> Room
    ensures { result ≡ room_in d }
{
    if d.present {
        Room {
            sectors: drive::sectors(d),
            protected: d.protected,
        }
    } else {
        NO_ROOM
    }
}

// The rooms of all units.
pub fn rooms_of(l: LentDrives) -> Rooms
    ensures { result ≡ rooms_of (drives_of l) }
{
    Rooms {
        units: l.units.map(room_in),
    }
}

// The room of a unit: a unit above 3 has none.
pub fn room_of(rooms: Rooms, unit: u8) -> Room
    ensures { result ≡ room_of rooms unit }
{
    of_unit(unit, rooms.units, NO_ROOM)
}
