// What the walk copies from an IOPB, and what it fixes of its command: the code that it will get, and how many sectors would have fitted.
// First comes what every command is asked, then what only a transfer is asked, then what its data is asked; the first row that applies
// decides. The drive is always that of the command's own unit.
ghost use Rattle.std.specs.Prelude.{◌≡◌, ◌*◌, not, ◌&&◌, ◌||◌, ◌≤◌, length, ltb, eqb};
ghost use Rattle.meaning.specs.Sectors.{sector_bytes, maximum_on};
ghost use Rattle.meaning.specs.Ranges.{bytes};
ghost use Rattle.meaning.specs.Links.{most_links};
ghost use Rattle.meaning.specs.Ends.{drive_end, memory_end};
ghost use Rattle.meaning.specs.Code.{copied_at, link_count, transfer_rows, chained, odd, gathers, command_in, nop, read, write, first_sector};
ghost use Rattle.chain.specs.Coding.{command_number, to_read, fixed_as, fault_fixes, verdict_by, verdict_of, early_rows, plain_rows, list_code, late_verdict};

use crate::links;
use meaning::{Copied, Drive, End, Link};

// The commands that the board knows.
#[derive(Clone, Copy, Debug, PartialEq, Eq)]
pub enum Command {
    NoOperation,
    WriteData,
    ReadData,
}

impl From<Command> for u8 {
    ghost from_gives = { λ c n. n ≡ command_number c };

    // as bits 3-0 of byte 0 ask for it
    fn from(command: Command) -> u8 {
        match command {
            Command::NoOperation => 0,
            Command::WriteData => 1,
            Command::ReadData => 2,
        }
    }
}

// A row of the rules that applies to a command, which then fails: each gives its code (Code 1 to 16), and two tell how many sectors would
// have fitted (Code 18).
#[derive(Clone, Copy, Debug, PartialEq, Eq)]
pub enum Fault {
    // 1EH: chained, and the next address is odd
    NextAlignment,
    // 14H: no such command, or not with this SGM or byte 4
    Unimplemented,
    // 42H: the unit is absent
    NotReady,
    // 13H
    CountZero,
    // 10H, 11H and 12H: above its maximum
    CylinderAbove,
    HeadAbove,
    SectorAbove,
    // 10H: sectors past the end of the drive, where so many would have fitted
    PastDrive(u8),
    // 90H: a Write Data on a protected drive
    Protected,
    // 4BH: the link list is not all in memory
    ListOutside,
    // 1CH: the ranges of the list have not the bytes of the sectors
    ListLength,
    // 1FH: a range of the list begins at an odd address
    ListAlignment,
    // 4BH: a range of the list ends past the end of memory
    RangeOutside,
    // 4BH: data without a list past the end of memory, where so many sectors would have fitted
    PastMemory(u8),
}

// What the walk fixes of a command: its code, and how many sectors would have fitted.
// stays: a record holds both as bytes, which C reads; 00 is the code of a command at no fault.
#[derive(Clone, Copy)]
pub struct Verdict {
    pub code: u8,
    pub fitted: u8,
}

// Both as one.
fn fixed(code: u8, fitted: u8) -> Verdict
    ensures { result ≡ fixed_as code fitted }
{
    Verdict { code, fitted }
}

impl From<Fault> for Verdict {
    ghost from_gives = { λ f v. v ≡ fault_fixes f };

    fn from(fault: Fault) -> Verdict {
        match fault {
            Fault::NextAlignment => fixed(0x1E, 0),
            Fault::Unimplemented => fixed(0x14, 0),
            Fault::NotReady => fixed(0x42, 0),
            Fault::CountZero => fixed(0x13, 0),
            Fault::CylinderAbove => fixed(0x10, 0),
            Fault::HeadAbove => fixed(0x11, 0),
            Fault::SectorAbove => fixed(0x12, 0),
            Fault::PastDrive(fitted) => fixed(0x10, fitted),
            Fault::Protected => fixed(0x90, 0),
            Fault::ListOutside => fixed(0x4B, 0),
            Fault::ListLength => fixed(0x1C, 0),
            Fault::ListAlignment => fixed(0x1F, 0),
            Fault::RangeOutside => fixed(0x4B, 0),
            Fault::PastMemory(fitted) => fixed(0x4B, fitted),
        }
    }
}

// A command that no row finds at fault has code 00.
impl From<Result<(), Fault>> for Verdict {
    ghost from_gives = { λ r v. v ≡ verdict_by r };

    fn from(asked: Result<(), Fault>) -> Verdict {
        match asked {
            Ok(()) => fixed(0x00, 0),
            Err(fault) => Verdict::from(fault),
        }
    }
}

// The fields of an IOPB that the walk keeps.
#[tactic(auto, unfolding(meaning::specs::Code::copied_at))]
fn fields_of(memory: &[u8], at: u32) -> Copied
    ensures { result ≡ copied_at memory.now at }
{
    Copied {
        byte0: iopb::byte0(memory, at),
        subfunction: iopb::subfunction(memory, at),
        unit: iopb::unit(memory, at),
        byte6: iopb::byte6(memory, at),
        head: iopb::head(memory, at),
        sector: iopb::sector(memory, at),
        count: iopb::count(memory, at),
        cylinder: iopb::cylinder(memory, at),
        address: iopb::data_address(memory, at),
        next: iopb::next_address(memory, at),
    }
}

// What the walk copies from the IOPB at an address. Where its thirty bytes are all in memory they are lent alone: the compiler then sees
// that they lie side by side, and reads the bytes of a number at once.
pub fn copied(memory: &[u8], at: u32) -> Copied
    ensures { result ≡ copied_at memory.now at }
{
    let from = at as usize;
    let to = from + iopb::IOPB_BYTES;
    if memory.len() < to {
        return fields_of(memory, at);
    }
    fields_of(&memory[from..to], 0)
}

// CHEN set: another command follows, if the next address is even.
pub(crate) fn chained(c: Copied) -> bool
    ensures { result ≡ chained c }
{
    c.byte0 / 32 % 2 == 1
}

// CHEN set and the next address odd.
pub(crate) fn misaligned(c: Copied) -> bool
    ensures { result ≡ (chained c && odd c.next) }
{
    chained(c) && c.next % 2 == 1
}

// SGM set: a transfer has a link list.
pub(crate) fn has_list(c: Copied) -> bool
    ensures { result ≡ gathers c }
{
    c.byte0 / 16 % 2 == 1
}

// Byte 0 asks for this command.
fn asks(c: Copied, command: Command) -> bool
    ensures { result ≡ eqb (command_in c.byte0) (command_number command) }
{
    c.byte0 % 16 == u8::from(command)
}

// A command above the last one, or SGM with No Operation, or byte 4 not zero.
fn unimplemented(c: Copied) -> bool
    ensures { result ≡ (ltb read (command_in c.byte0) || gathers c && eqb (command_in c.byte0) nop || not (eqb c.subfunction 0)) }
{
    u8::from(Command::ReadData) < c.byte0 % 16
        || has_list(c) & asks(c, Command::NoOperation)
        || c.subfunction != 0
}

// The number of the command's first sector.
pub(crate) fn first_sector(c: Copied, d: Drive) -> u32
    ensures { result ≡ first_sector d c }
{
    drive::sector_number(d, c.cylinder, c.head, c.sector)
}

// The sector is above the maximum of its own head.
fn sector_above(c: Copied, d: Drive) -> bool
    ensures { result ≡ ltb (maximum_on d c.head) c.sector }
{
    drive::above(drive::maximum_on(d, c.head), c.sector as u32)
}

// Write Data and the drive is protected. Both are asked at once, since writes and reads go by turns in many chains: a branch on them is slow.
fn forbidden(c: Copied, d: Drive) -> bool
    ensures { result ≡ (eqb (command_in c.byte0) write && d.protected) }
{
    asks(c, Command::WriteData) & d.protected
}

// The test for the end of memory: of the 512 x count bytes from the data address on.
fn memory_end(c: Copied, memory: u64) -> End
    ensures { result ≡ memory_end memory (bytes c.address (sector_bytes * c.count)) }
{
    let many = drive::SECTOR_BYTES as u32 * c.count as u32;
    ends::memory_end(memory, c.address, many)
}

// What is asked of a transfer, before its data is looked at. `first` is the number of its first sector.
// stays: worked out once, it is handed on beside the two that it follows from; a struct of the three would be made here alone.
#[tactic(auto, unfolding(crate::specs::Coding::verdict_of))]
fn ask_transfer(c: Copied, d: Drive, first: u32) -> Result<(), Fault>
    requires { first ≡ first_sector d c }
    ensures { verdict_by result ≡ verdict_of (transfer_rows c d) }
{
    if !d.present {
        return Err(Fault::NotReady);
    }
    if c.count == 0 {
        return Err(Fault::CountZero);
    }
    if d.cylinder < c.cylinder {
        return Err(Fault::CylinderAbove);
    }
    if d.head < c.head {
        return Err(Fault::HeadAbove);
    }
    if sector_above(c, d) {
        return Err(Fault::SectorAbove);
    }
    let end = ends::drive_end(d, first, c.count);
    if end.past {
        return Err(Fault::PastDrive(ends::as_byte(end.fitted)));
    }
    if forbidden(c, d) {
        return Err(Fault::Protected);
    }
    Ok(())
}

// What is asked of a command by the rows that do not look at its data: what every command is asked, and then what a transfer is asked.
// `first` is the number of its first sector.
#[tactic(auto, unfolding(crate::specs::Coding::verdict_of))]
pub(crate) fn ask_early(c: Copied, d: Drive, first: u32) -> Result<(), Fault>
    requires { first ≡ first_sector d c }
    ensures { verdict_by result ≡ verdict_of (early_rows c d) }
{
    if misaligned(c) {
        return Err(Fault::NextAlignment);
    }
    if unimplemented(c) {
        return Err(Fault::Unimplemented);
    }
    if asks(c, Command::NoOperation) {
        return Ok(());
    }
    ask_transfer(c, d, first)
}

// How many elements the link list has: bits 7-3 of byte 6, where 0 means 32.
#[tactic(auto, unfolding(meaning::specs::Code::link_count))]
fn link_count(c: Copied) -> u16
    ensures { result ≡ link_count c }
{
    let n = c.byte6 / 8 % 32;
    if n == 0 { links::MOST_LINKS } else { n as u16 }
}

// How many elements the walk reads of a command that was asked so far: none where it is at fault, or has no list, or one that is not all in a
// memory of so many bytes.
#[tactic(auto, unfolding(crate::specs::Coding::to_read))]
pub(crate) fn links_to_read(c: Copied, early: Result<(), Fault>, memory: u64) -> u16
    ensures { result ≡ to_read c (verdict_by early).code memory }
{
    if early.is_err() || !has_list(c) {
        return 0;
    }
    let n = link_count(c);
    if memory < c.address as u64 + links::LINK_BYTES as u64 * n as u64 {
        return 0;
    }
    n
}

// What the data of a command is asked without a list that was read: a No Operation has none; a list that was not read lies outside memory.
#[tactic(auto, unfolding(crate::specs::Coding::verdict_of))]
fn ask_plain(c: Copied, memory: u64) -> Result<(), Fault>
    ensures { verdict_by result ≡ verdict_of (plain_rows c memory) }
{
    if asks(c, Command::NoOperation) {
        return Ok(());
    }
    if has_list(c) {
        return Err(Fault::ListOutside);
    }
    let end = memory_end(c, memory);
    if end.past {
        return Err(Fault::PastMemory(ends::as_byte(end.fitted)));
    }
    Ok(())
}

// What the ranges of a list that was read are asked, for a transfer of so many sectors.
#[tactic(auto, unfolding(crate::specs::Coding::list_code))]
fn ask_list(count: u16, memory: u64, list: &[Link]) -> Result<(), Fault>
    requires { length list.now ≤ most_links }
    ensures { verdict_by result ≡ fixed_as (list_code count memory list.now) 0 }
{
    let bytes: u32 = list.iter().map(|x| x.length as u32).sum();
    if bytes != drive::SECTOR_BYTES as u32 * count as u32 {
        return Err(Fault::ListLength);
    }
    if links::some_odd(list) {
        return Err(Fault::ListAlignment);
    }
    if links::some_outside(list, memory) {
        return Err(Fault::RangeOutside);
    }
    Ok(())
}

// What a command is asked: what it was asked early, and then what its data is. The list is what the walk read of it, and memory is its length.
pub(crate) fn ask_all(
    c: Copied,
    early: Result<(), Fault>,
    memory: u64,
    list: &[Link],
) -> Result<(), Fault>
    requires { length list.now ≤ most_links }
    ensures { verdict_by result ≡ late_verdict c (verdict_by early) memory list.now (length list.now) }
{
    early?;
    if list.is_empty() {
        return ask_plain(c, memory);
    }
    ask_list(c.count, memory, list)
}
