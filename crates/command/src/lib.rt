// One command, by its record: what kind it is, its steps and whether it is finished; what it touches, what its close posts, and whether
// its record may stand in a table in use.
#![tactic(auto)]

pub mod closing;
mod hulled;
pub mod sound;
pub mod touch;

ghost use Rattle.std.specs.Prelude.{◌≡◌};
ghost use Rattle.meaning.specs.Command as command;
ghost use Rattle.command.specs.Kinds.{kind_of};

use meaning::Record;

// The commands that move sectors, as byte 0 of an IOPB has them.
const WRITE: u8 = 1;

const READ: u8 = 2;

// What a command moves: a transfer with code 00 reads sectors, or writes them.
#[derive(Clone, Copy, PartialEq, Eq)]
enum Kind {
    Reads,
    Writes,
    MovesNothing,
}

impl Kind {
    // By the code and the copied byte 0 of a record.
    fn of(r: Record) -> Kind
        ensures { result ≡ kind_of r }
    {
        match (r.code, r.byte0 % 16) {
            (0, READ) => Kind::Reads,
            (0, WRITE) => Kind::Writes,
            _ => Kind::MovesNothing,
        }
    }
}

// A Read Data with code 00.
pub fn reads(r: Record) -> bool
    ensures { result ≡ command.reads r }
{
    Kind::of(r) == Kind::Reads
}

// A Write Data with code 00.
pub fn writes(r: Record) -> bool
    ensures { result ≡ command.writes r }
{
    Kind::of(r) == Kind::Writes
}

// A transfer with code 00.
pub fn transfers(r: Record) -> bool
    ensures { result ≡ command.transfers r }
{
    Kind::of(r) != Kind::MovesNothing
}

// How many steps a command has: a transfer with code 00 its count, every other one.
#[tactic(auto, unfolding(meaning::specs::Command::steps_of))]
pub fn steps_of(r: Record) -> u32
    ensures { result ≡ command.steps_of r }
{
    if transfers(r) { r.count as u32 } else { 1 }
}

// No step of the command is left.
#[tactic(auto, unfolding(meaning::specs::Command::finished))]
pub fn finished(r: Record) -> bool
    ensures { result ≡ command.finished r }
{
    steps_of(r) <= r.taken
}

// How many steps of the command are left.
#[tactic(auto, unfolding(meaning::specs::Command::remaining))]
pub fn remaining(r: Record) -> u32
    ensures { result ≡ command.remaining r }
{
    steps_of(r).saturating_sub(r.taken)
}
