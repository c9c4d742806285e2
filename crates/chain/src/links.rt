// Link lists: how one is read from memory into an array of 32 elements, and what the rules ask of each of its ranges (Link 1 to 8).
ghost use Rattle.std.specs.Prelude.{◌≡◌, ◌+◌, ◌*◌, ◌≤◌, min, length};
ghost use Rattle.meaning.specs.Each.{some_of};
ghost use Rattle.meaning.specs.Links.{link_bytes, most_links, two_at, four_at, link_at, links_at, no_links, padded, range_of};
ghost use Rattle.meaning.specs.Code as code;

use meaning::Link;

// The most ranges that a record can hold.
pub const MOST_LINKS: u16 = 32;

// The bytes of an element.
pub const LINK_BYTES: usize = 8;

// A list of no ranges.
pub fn no_links() -> [Link; 32]
    ensures { result ≡ no_links }
{
    [Link::default(); 32]
}

// How many ranges a number can mean: a list holds 32 and no more.
pub fn held(n: u16) -> usize
    ensures { result ≡ min n 32 }
{
    n.min(MOST_LINKS) as usize
}

// The two bytes there as one number.
fn two_at(memory: &[u8], at: usize) -> u16
    requires { at + 2 ≤ length memory.now }
    ensures { result ≡ two_at memory.now at }
{
    u16::from_be_bytes([memory[at], memory[at + 1]])
}

// The four bytes there as one number.
fn four_at(memory: &[u8], at: usize) -> u32
    requires { at + 4 ≤ length memory.now }
    ensures { result ≡ four_at memory.now at }
{
    u32::from_be_bytes([memory[at], memory[at + 1], memory[at + 2], memory[at + 3]])
}

// The element there.
#[tactic(auto, unfolding(meaning::specs::Links::link_at))]
fn link_at(memory: &[u8], at: usize) -> Link
    requires { at + link_bytes ≤ length memory.now }
    ensures { result ≡ link_at memory.now at }
{
    Link {
        address: four_at(memory, at + 4),
        length: two_at(memory, at),
        unused: 0,
    }
}

// The list of n elements there, before elements of zeros.
#[tactic(auto, unfolding(meaning::specs::Links::links_at))]
pub(crate) fn links_at(memory: &[u8], at: usize, n: usize) -> [Link; 32]
    requires { (n ≤ most_links) × (1 ≤ n → at + link_bytes * n ≤ length memory.now) }
    ensures { result ≡ padded (links_at memory.now at n) }
{
    let mut list = no_links();
    for k in 0..n {
        list[k] = link_at(memory, at + LINK_BYTES * k);
    }
    list
}

// The range of an element ends past the end of memory, be it empty or not.
fn outside(x: Link, memory: u64) -> bool
    ensures { result ≡ code.outside memory (range_of x) }
{
    ends::memory_end(memory, x.address, x.length as u32).past
}

// Some of these ranges begin at an odd address.
pub(crate) fn some_odd(list: &[Link]) -> bool
    ensures { result ≡ some_of (λ x. code.odd x.address) list.now }
{
    list.iter().any(|x| x.address % 2 == 1)
}

// Some of these ranges end past the end of memory.
pub(crate) fn some_outside(list: &[Link], memory: u64) -> bool
    ensures { result ≡ some_of (λ x. code.outside memory (range_of x)) list.now }
{
    list.iter().any(|x| outside(*x, memory))
}
