// The walk: from a first address along the chain, to know that it is accepted and where its IOPBs are; then each is copied into the table,
// before anything moves.
ghost use Rattle.std.specs.Prelude.{◌≡◌, [], ◌+◌, ◌≤◌, max, length};
ghost use Rattle.meaning.specs.Each.{some_of};
ghost use Rattle.meaning.specs.Fields.{iopb_bytes};
ghost use Rattle.meaning.specs.Lends.{images_of};
ghost use Rattle.meaning.specs.Drives.{Drives, drives_of};
ghost use Rattle.meaning.specs.State.{state_of};
ghost use Rattle.meaning.specs.Walk.{record_of, goes_on, shares, follow, WalkGives};
ghost use Rattle.chain.specs.Found.{walked_of, finding_of, found_of, chain_for};
ghost use Rattle.chain.specs.Records.{record_at, plain_record_at, filled_at};
ghost use Rattle.chain.specs.Past.{AllEnd};

use crate::code::Verdict;
use crate::{code, links, ranges, sizes};
use meaning::lends::LentDisks;
use meaning::refusals::Refusal;
use meaning::{Copied, Drive, LentDrives, Record, Walked, WithTable};

// The most commands that a chain may have.
pub const MOST_COMMANDS: usize = 32;

// What is found of a chain that is accepted: where the IOPBs of its commands are, before zeros, and how many commands it has.
// stays: no heap here, so the addresses lie in an array, with how many of them count beside it.
#[derive(Clone, Copy)]
pub struct Found {
    pub addresses: [u32; 32],
    pub commands: usize,
}

// A command's record, with no step taken yet, by the drive of its own unit. Its list is read only where no code is given before.
fn record_of(memory: &[u8], c: Copied, at: u32, d: Drive) -> Record
    ensures { result ≡ record_of c at d memory.now }
{
    let first = code::first_sector(c, d);
    let early = code::ask_early(c, d, first);
    let length = memory.len() as u64;
    let ranges = code::links_to_read(c, early, length);
    let list = links::links_at(memory, c.address as usize, ranges as usize);
    let asked = code::ask_all(c, early, length, &list[..ranges as usize]);
    let verdict = Verdict::from(asked);
    Record {
        iopb: at,
        address: c.address,
        sector: first,
        taken: 0,
        ranges,
        count: c.count,
        unit: c.unit,
        byte0: c.byte0,
        code: verdict.code,
        fitted: verdict.fitted,
        list,
    }
}

// CHEN is set and the next address is even: another follows.
fn goes_on(c: Copied) -> bool
    ensures { result ≡ goes_on c }
{
    code::chained(c) && c.next % 2 != 1
}

// The thirty bytes at a and at b have one in common.
fn share(a: u32, b: u32) -> bool
    ensures { result ≡ shares a b }
{
    ranges::crosses(a, iopb::IOPB_BYTES as u32, b, iopb::IOPB_BYTES as u32)
}

// Some IOPB at one of these addresses shares a byte with the one at b. All of them end at or before `past`: they are searched only if that
// one begins before it.
fn meets_earlier(addresses: &[u32], past: u64, b: u32) -> bool
    requires { AllEnd past addresses.now }
    ensures { result ≡ some_of (λ a. shares a b) addresses.now }
{
    if past <= b as u64 {
        return false;
    }
    addresses.iter().any(|a| share(*a, b))
}

// Where the furthest IOPB ends: at `past`, or where the one at `at` does.
fn furthest(past: u64, at: u32) -> u64
    ensures { result ≡ max past (at + iopb_bytes) }
{
    past.max(at as u64 + iopb::IOPB_BYTES as u64)
}

// From the first IOPB on: each is tested, 5, 3, 4 in turn, and its address is noted, until one ends the chain. The drives have no say in it.
fn follow_chain(memory: &[u8], start: u32) -> Result<Found, Refusal>
    ensures { (d : Drives) → finding_of result ≡ found_of (follow 32 memory.now d [] start) }
{
    let mut addresses = [0u32; 32];
    let mut at = start;
    let mut past: u64 = 0;
    for n in 0..MOST_COMMANDS {
        if !iopb::all_in(memory, at) {
            return Err(Refusal::OutsideMemory);
        }
        if meets_earlier(&addresses[..n], past, at) {
            return Err(Refusal::SharedIopb);
        }
        addresses[n] = at;
        let c = code::copied(memory, at);
        if !goes_on(c) {
            let commands = n + 1;
            return Ok(Found {
                addresses,
                commands,
            });
        }
        past = furthest(past, at);
        at = c.next;
    }
    Err(Refusal::LongChain)
}

// What a walk finds whose table has so many records: where the IOPBs of the chain's commands are, or why it refuses: 1, 2, then at each
// IOPB in turn 5, 3, 4. No record is made yet, so that the table is left alone on a refusal.
#[tactic(auto, unfolding(crate::specs::Found::chain_for))]
pub fn find(
    memory: &[u8],
    disks: LentDisks<'_>,
    start: u32,
    records: usize,
) -> Result<Found, Refusal>
    ensures { finding_of result ≡ found_of (chain_for (drives_of disks.entry.drives) start records memory.now (images_of disks.entry)) }
{
    if records < MOST_COMMANDS {
        return Err(Refusal::WrongSize);
    }
    if sizes::sizes_wrong(memory, disks) {
        return Err(Refusal::WrongSize);
    }
    if start % 2 == 1 {
        return Err(Refusal::OddAddress);
    }
    follow_chain(memory, start)
}

// The record of the IOPB at an address.
pub fn record_at(memory: &[u8], l: LentDrives, at: u32) -> Record
    ensures { result ≡ record_at memory.now (drives_of l) at }
{
    let c = code::copied(memory, at);
    record_of(memory, c, at, units::drive_of(l, c.unit))
}

// The same with no list, which is the record itself where SGM is clear. The list is made before any test, so that the compiler sees one
// list of zeros on every way, and lays it where the record goes.
// stays: of one function for both the compiler makes a local record and copies it, and a walk without lists takes 1.6 times as long.
pub fn plain_record_at(memory: &[u8], l: LentDrives, at: u32) -> Record
    ensures { result ≡ plain_record_at memory.now (drives_of l) at }
{
    let list = links::no_links();
    let c = code::copied(memory, at);
    let d = units::drive_of(l, c.unit);
    let first = code::first_sector(c, d);
    let early = code::ask_early(c, d, first);
    let asked = code::ask_all(c, early, memory.len() as u64, &[]);
    let verdict = Verdict::from(asked);
    Record {
        iopb: at,
        address: c.address,
        sector: first,
        taken: 0,
        ranges: 0,
        count: c.count,
        unit: c.unit,
        byte0: c.byte0,
        code: verdict.code,
        fitted: verdict.fitted,
        list,
    }
}

// The records of the IOPBs at these addresses, made in their places of the lent table. One without a list is made apart, by a store of its
// own: so the compiler lays its zeros there, and copies none.
fn fill(memory: &[u8], l: LentDrives, addresses: &[u32], table: &mut [Record])
    requires { length addresses.now ≤ length table.old }
    ensures { table.new ≡ filled_at memory.now (drives_of l) (length addresses.now) addresses.now table.old }
{
    for (k, at) in addresses.iter().enumerate() {
        if iopb::sgm(memory, *at) == 1 {
            table[k] = record_at(memory, l, *at);
        } else {
            table[k] = plain_record_at(memory, l, *at);
        }
    }
}

// The walk over a lent table: its records are made where they lie, as many as there are commands; on a refusal nothing is changed.
pub fn walk_into(
    memory: &[u8],
    disks: LentDisks<'_>,
    start: u32,
    table: &mut [Record],
) -> Result<usize, Refusal>
    ensures { WalkGives (drives_of disks.entry.drives) start (state_of memory.now (images_of disks.entry) table.old) (walked_of result) table.new }
{
    let found = find(memory, disks, start, table.len())?;
    let addresses = &found.addresses[..found.commands];
    fill(memory, disks.drives, addresses, table);
    Ok(found.commands)
}

// What C is told of a walk: its number, which is 0 where it is accepted, and how many commands there are.
pub fn answer_of(commands: Result<usize, Refusal>) -> Walked
    ensures { result ≡ walked_of commands }
{
    match commands {
        Ok(commands) => Walked {
            number: 0,
            commands,
        },
        Err(refusal) => Walked {
            number: u8::from(refusal),
            commands: 0,
        },
    }
}

// The walk over a table by value.
pub fn walk(
    memory: &[u8],
    disks: LentDisks<'_>,
    start: u32,
    table: [Record; 32],
) -> WithTable<Walked>
    ensures { WalkGives (drives_of disks.entry.drives) start (state_of memory.now (images_of disks.entry) table) result.answer result.table }
{
    let mut table = table;
    let answer = answer_of(walk_into(memory, disks, start, &mut table));
    WithTable { answer, table }
}
