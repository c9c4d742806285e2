// Whether two ranges have something in common, by their numbers: bytes of memory, or sectors of one disk.
ghost use Rattle.std.specs.Prelude.{◌≡◌, max, min, ltb};
ghost use Rattle.meaning.specs.Ranges as ranges;

// The numbers from `from` up to, not including, `to`, and those from `start` up to, not including, `end`, have one in common.
// stays: two pairs of numbers are no plainer as two structs, that callers would make of what they have.
pub fn common(from: u64, to: u64, start: u64, end: u64) -> bool
    ensures { result ≡ ltb (max from start) (min to end) }
{
    from.max(start) < to.min(end)
}

// n numbers from a on and m numbers from b on have one in common.
#[tactic(auto, unfolding(meaning::specs::Ranges::crosses))]
pub fn crosses(a: u32, n: u32, b: u32, m: u32) -> bool
    ensures { result ≡ ranges.crosses a n b m }
{
    common(a as u64, a as u64 + n as u64, b as u64, b as u64 + m as u64)
}
