// A drive: its maxima and counts, the number of a sector and the place of a number, and the size that its image must have.
// A largest number (counted from zero) and a number of things are two types, so that one is never taken for the other.
#![tactic(auto)]

ghost use Rattle.std.specs.Prelude.{◌≡◌, ◌+◌, ◌*◌, ◌≤◌, ◌<◌, true, ltb};
ghost use Rattle.meaning.specs.Sectors.{maximum_on, per_cylinder, sector_count, largest_sector, sector_number, maxima_right, image_right};
ghost use Rattle.meaning.specs.Place.{place_of, placed};
ghost use Rattle.drive.specs.Placing.{placed_by};

use meaning::refusals::Refusal;
use meaning::{Count, Drive, Maximum, Place, Placed};

// The bytes of a sector, and the most that an image may have.
pub const SECTOR_BYTES: u64 = 512;

pub const IMAGE_LIMIT: u64 = 16_777_216;

// The maximum sector of a head: the last head of a cylinder has its own.
pub fn maximum_on(d: Drive, head: u8) -> Maximum
    ensures { result.0 ≡ maximum_on d head }
{
    if head == d.head {
        return Maximum(d.last_sector as u32);
    }
    Maximum(d.sector as u32)
}

// Whether a drive can be: its last head has no more sectors than the others.
pub fn maxima_right(d: Drive) -> bool
    ensures { result ≡ maxima_right d }
{
    d.last_sector <= d.sector
}

// How many sectors a cylinder has: a whole track for each head before the last, and the last head's. A number of 32 bits, so that no
// product of it is wider.
fn on_cylinder(d: Drive) -> u32
    ensures value { result ≡ per_cylinder d }
    ensures within { (1 ≤ result) × (result ≤ 65_536) }
{
    let on_track = d.sector as u32 + 1;
    let on_last_head = d.last_sector as u32 + 1;
    d.head as u32 * on_track + on_last_head
}

// The same as a count.
pub fn per_cylinder(d: Drive) -> Count
    ensures value { result.0 ≡ per_cylinder d }
    ensures within { (1 ≤ result.0) × (result.0 ≤ 65_536) }
{
    Count(on_cylinder(d) as u64)
}

// The sectors of so many cylinders before another, each of so many sectors. At most 65,535 times at most 65,536 is a number of 32 bits, and
// no other product is as large.
fn of_cylinders(cylinders: u16, each: u32) -> u32
    requires { each ≤ 65_536 }
    ensures value { result ≡ cylinders * each }
    ensures within { result ≤ 4_294_901_760 }
{
    cylinders as u32 * each
}

// Two numbers of sectors together: a sum of 64 bits, since it may be more than 32 hold.
fn together(a: u32, b: u32) -> Count
    ensures { result.0 ≡ a + b }
{
    Count(a as u64 + b as u64)
}

// How many sectors the drive has: those of the cylinders before the last, and those of the last. Together they are at most 2 to the 32.
pub fn sectors(d: Drive) -> Count
    ensures value { result.0 ≡ sector_count d }
    ensures within { (1 ≤ result.0) × (result.0 ≤ 4_294_967_296) }
{
    let each = on_cylinder(d);
    together(of_cylinders(d.cylinder, each), each)
}

// The largest sector number of the drive.
pub fn largest(d: Drive) -> Maximum
    ensures { result.0 ≡ largest_sector d }
{
    let count = sectors(d).0;
    Maximum((count - 1) as u32)
}

// A sector's number is above the largest one.
pub fn above(largest: Maximum, sector: u32) -> bool
    ensures { result ≡ ltb largest.0 sector }
{
    largest.0 < sector
}

// The number of a sector, from its cylinder, head and sector; defined also where one of them is above its maximum.
pub fn sector_number(d: Drive, cylinder: u16, head: u8, sector: u8) -> u32
    ensures { result ≡ sector_number d cylinder head sector }
{
    let on_cylinder = on_cylinder(d);
    let on_track = d.sector as u32 + 1;
    of_cylinders(cylinder, on_cylinder) + head as u32 * on_track + sector as u32
}

// The place of a number that the drive has: its whole cylinders, then the whole tracks of what is left, then the sectors of what is left then.
fn place_within(d: Drive, sector: u32) -> Place
    requires { (maxima_right d ≡ true) × (sector < sector_count d) }
    ensures { result ≡ place_of d sector }
{
    let on_cylinder = on_cylinder(d);
    let on_track = d.sector as u32 + 1;
    let rest = sector % on_cylinder;
    Place {
        cylinder: (sector / on_cylinder) as u16,
        head: (rest / on_track) as u8,
        sector: (rest % on_track) as u8,
    }
}

// The place of a number, or why it has none: 1 for a drive that cannot be, then 10 for a number that the drive has not.
fn place_in(d: Drive, sector: u32) -> Result<Place, Refusal>
    ensures { placed_by result ≡ placed d sector }
{
    if !maxima_right(d) {
        return Err(Refusal::WrongSize);
    }
    if above(largest(d), sector) {
        return Err(Refusal::NoSector);
    }
    Ok(place_within(d, sector))
}

// The same, as C is told it: a number beside the place, and 0, 0, 0 for a place that is refused.
// stays: the struct with a number beside the place is that of the C interface.
pub fn place_of(d: Drive, sector: u32) -> Placed
    ensures { result ≡ placed d sector }
{
    match place_in(d, sector) {
        Ok(place) => Placed { place, number: 0 },
        Err(refusal) => Placed {
            place: Place::default(),
            number: u8::from(refusal),
        },
    }
}

// Whether the drive can be, and an image of so many bytes is within its limit and has the drive's size.
pub fn image_right(d: Drive, bytes: u64) -> bool
    ensures { result ≡ image_right d bytes }
{
    if IMAGE_LIMIT < bytes {
        return false;
    }
    let count = sectors(d).0;
    maxima_right(d) & (bytes == SECTOR_BYTES * count)
}
