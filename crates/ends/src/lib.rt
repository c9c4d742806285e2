// The two tests for an end, of the drive and of memory: each says whether the end is passed, and how many whole sectors would have fitted
// from the same start on (Code 9, 11 and 17); and that number as the byte that a close posts (Code 18).
#![tactic(auto)]

ghost use Rattle.std.specs.Prelude.{◌≡◌, ◌+◌, ◌-◌, ◌/◌, ltb};
ghost use Rattle.meaning.specs.Sectors.{sector_bytes};
ghost use Rattle.meaning.specs.Ranges.{bytes};
ghost use Rattle.meaning.specs.Ends.{drive_end, memory_end, as_byte};

use meaning::{Drive, End};

// So many from a start on go past an end. The sum has 64 bits, since it may be more than 32 hold.
pub fn goes_past(end: u64, start: u32, many: u32) -> bool
    ensures { result ≡ ltb end (start + many) }
{
    end < start as u64 + many as u64
}

// How many there are from a start to an end: none where the start is past it.
fn from_on(end: u64, start: u32) -> u64
    ensures { result ≡ end - start }
{
    end.saturating_sub(start as u64)
}

// How many whole sectors so many bytes hold.
fn whole_sectors(bytes: u64) -> u64
    ensures { result ≡ bytes / sector_bytes }
{
    bytes / drive::SECTOR_BYTES
}

// The test for the end of the drive: whether so many sectors from a first one on go past it, and how many would have fitted.
// stays: both parts are told of every start, also where the end is not passed, so no Option stands for the two.
pub fn drive_end(d: Drive, first: u32, many: u16) -> End
    ensures { result ≡ drive_end d first many }
{
    let count = drive::sectors(d).0;
    End {
        past: goes_past(count, first, many as u32),
        fitted: from_on(count, first),
    }
}

// The test for the end of memory: whether so many bytes from an address on go past it, and how many whole sectors would have fitted.
pub fn memory_end(memory: u64, address: u32, many: u32) -> End
    ensures { result ≡ memory_end memory (bytes address many) }
{
    End {
        past: goes_past(memory, address, many),
        fitted: whole_sectors(from_on(memory, address)),
    }
}

// What would have fitted, as one byte: 255 where it is more.
pub fn as_byte(fitted: u64) -> u8
    ensures { result ≡ as_byte fitted }
{
    u8::try_from(fitted).unwrap_or(u8::MAX)
}
