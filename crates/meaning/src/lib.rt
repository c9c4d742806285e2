// What the rules of the board speak of: the types, here, and the rules themselves as definitions, in specs/ (docs/RULES.md says them in
// words). Of what is here only the lending on of images and the numbers of refusals run. The crates above prove their code equal to these
// definitions.
#![tactic(auto)]

pub mod lends;
pub mod refusals;

// The largest number of a kind, counted from zero.
#[derive(Clone, Copy)]
pub struct Maximum(pub u32);

// How many there are of a kind.
#[derive(Clone, Copy)]
pub struct Count(pub u64);

// A drive: its maximum cylinder, head and sector, and the maximum sector of its last head, each counted from zero; its write-protect mark;
// and whether it is there at all.
#[repr(C)]
#[derive(Clone, Copy, Default)]
pub struct Drive {
    pub cylinder: u16,
    pub head: u8,
    // of every head but the last of a cylinder
    pub sector: u8,
    pub last_sector: u8,
    pub protected: bool,
    pub present: bool,
}

// The drives as a caller lends them: one for each of the units 0 to 3, there or absent.
#[repr(C)]
#[derive(Clone, Copy, Default)]
pub struct LentDrives {
    pub units: [Drive; 4],
}

// A place on a drive.
#[repr(C)]
#[derive(Clone, Copy, Default)]
pub struct Place {
    pub cylinder: u16,
    pub head: u8,
    pub sector: u8,
}

// What the call for the place of a number answers: the place, and the call's number.
#[repr(C)]
#[derive(Clone, Copy)]
pub struct Placed {
    pub place: Place,
    pub number: u8,
}

// What the walk copies from an IOPB before anything moves.
#[derive(Clone, Copy)]
pub struct Copied {
    // byte 0 whole: ERRS, DONE, CHEN, SGM and the command
    pub byte0: u8,
    pub subfunction: u8,
    pub unit: u8,
    // byte 6 whole: how many elements its link list has, where it has one, and the interrupt level
    pub byte6: u8,
    pub head: u8,
    pub sector: u8,
    pub count: u16,
    pub cylinder: u16,
    // the data address, or that of the link list
    pub address: u32,
    // the next IOPB's address
    pub next: u32,
}

// What a test for an end answers: whether the end is passed, and how many whole sectors would have fitted, from the same start on.
#[derive(Clone, Copy)]
pub struct End {
    pub past: bool,
    pub fitted: u64,
}

// One element of a link list: a range of memory, by where it begins and how many bytes it has. It fills its eight bytes, so that a table
// has no byte that is left unset, and is copied and filled as plain bytes.
#[repr(C)]
#[derive(Clone, Copy, Default)]
pub struct Link {
    pub address: u32,
    pub length: u16,
    // the walk makes it 0, and nothing looks at it
    pub unused: u16,
}

// One accepted command. It holds what cannot be worked out again; its kind, its steps and what it touches follow from these.
#[repr(C)]
#[derive(Clone, Copy, Default)]
pub struct Record {
    // where its IOPB is
    pub iopb: u32,
    // the data address: of its data, or of its link list
    pub address: u32,
    // the number of its first sector
    pub sector: u32,
    // steps taken
    pub taken: u32,
    // how many ranges its link list has; 0 where it has no list
    pub ranges: u16,
    // how many sectors
    pub count: u16,
    // the unit whose drive it goes to
    pub unit: u8,
    // the copied byte 0
    pub byte0: u8,
    // the code that its close will post, and how many sectors would have fitted, which it posts beside it
    pub code: u8,
    pub fitted: u8,
    // the ranges, as the walk copied them, before elements of zeros
    pub list: [Link; 32],
}

// What the walk answers: its number, and how many commands there are (0 on a refusal).
#[repr(C)]
#[derive(Clone, Copy)]
pub struct Walked {
    pub number: u8,
    pub commands: usize,
}

// What a run answers: steps taken, picks refused (none in a run as written), its number, and whether all commands are finished.
#[repr(C)]
#[derive(Clone, Copy)]
pub struct Ran {
    pub steps: u64,
    pub refused: u64,
    pub number: u8,
    pub finished: bool,
}

// What a call answers, with the table that went in and comes back by value.
#[derive(Drop)]
pub struct WithTable<A> {
    pub answer: A,
    pub table: [Record; 32],
}

// A part of an image, named by where it begins and by its length: what a look gives a program that cannot be handed the part itself.
#[repr(C)]
#[derive(Clone, Copy)]
pub struct Part {
    pub at: usize,
    pub length: usize,
}

// One IOPB as a viewer shows it: the number of the viewer's making, and every field, each 0 where that number is not.
#[repr(C)]
#[derive(Clone, Copy)]
pub struct Iopb {
    pub data_address: u32,
    pub next_address: u32,
    pub count: u16,
    pub cylinder: u16,
    pub number: u8,
    pub errs: u8,
    pub done: u8,
    pub chen: u8,
    pub sgm: u8,
    pub command: u8,
    pub completion: u8,
    pub wrpt: u8,
    pub oncl: u8,
    pub drdy: u8,
    pub internal: u8,
    pub subfunction: u8,
    pub unit: u8,
    pub head: u8,
    pub sector: u8,
}
