// Whether two commands conflict. What a command touches does not change with its steps (Touch 5), so what can be said of it in few numbers is
// worked out once, as its footprint: its status bytes, its sectors, and the hull of its data, from its first byte in memory to its last.
// Commands whose footprints do not meet have no conflict; where they meet, the ranges themselves are tested, pair by pair.
ghost use Rattle.std.specs.Prelude.{◌≡◌, ◌+◌, ◌*◌, ◌≤◌, ◌&&◌, ◌||◌, [], map, take, length};
ghost use Rattle.meaning.specs.Each.{some_of};
ghost use Rattle.meaning.specs.Sectors.{sector_bytes};
ghost use Rattle.meaning.specs.Ranges.{bytes, sectors_of, overlap, meet};
ghost use Rattle.meaning.specs.Links.{most_links, range_of};
ghost use Rattle.meaning.specs.Command.{writes, links_of};
ghost use Rattle.meaning.specs.Touch as touch;
ghost use Rattle.command.specs.Footprints.{nearer, most_bytes, most_added, hull_with, hull_of, moved_by, moved_data, data_hull, no_footprint, footprint_of, hulls_meet, status_meets, data_meets, sectors_meet, footprints_meet, data_conflicts, sectors_conflict};

use crate::hulled::Hulled;
use chain::{links, ranges};
use meaning::{Link, Record};

// A close writes the first four bytes of its IOPB (Step 5).
const STATUS_BYTES: u32 = 4;

// What begins past this is taken to begin here, which is far outside memory, so that every end of a range fits into 32 bits: of such
// numbers the compiler looks at several at a time.
const FAR: u32 = 2_147_483_648;

// From the first byte of some ranges to the first one past all of them.
#[derive(Clone, Copy, Default)]
pub struct Hull {
    pub low: u32,
    pub high: u32,
    // how many bytes the ranges have together
    pub bytes: u32,
}

// What a command touches from its first step to its close, and how many steps it has.
#[derive(Clone, Copy, Default)]
pub struct Footprint {
    // of its data
    pub hull: Hull,
    // where its status bytes begin
    pub status: u32,
    // its sectors: the first one, and how many
    pub sector: u32,
    pub sectors: u32,
    pub steps: u32,
    // the unit that they are of
    pub unit: u8,
    // whether it reads sectors, or writes them
    // stays: two footprints are asked one of these with a plain `or`, which by a Kind would be two comparisons
    pub reads: bool,
    pub writes: bool,
}

// So many bytes of memory, one after another.
#[derive(Clone, Copy)]
struct Bytes {
    from: u32,
    many: u32,
}

// The sectors that a command moves, one after another on its own unit, and whether it writes them.
#[derive(Clone, Copy)]
struct Sectors {
    unit: u8,
    first: u32,
    many: u32,
    written: bool,
}

impl Bytes {
    // They have one in common with others.
    fn meet(self, others: Bytes) -> bool
        ensures { result ≡ overlap (bytes self.from self.many) (bytes others.from others.many) }
    {
        ranges::crosses(self.from, self.many, others.from, others.many)
    }
}

impl From<Link> for Bytes {
    // The range of an element.
    fn from(x: Link) -> Bytes
        ensures value { result ≡ record { from = x.address; many = x.length } }
        ensures within { result.many ≤ 65_535 }
    {
        Bytes {
            from: x.address,
            many: x.length as u32,
        }
    }
}

impl Sectors {
    // Those of a command: none where it moves none.
    fn of(r: &Record) -> Sectors
        ensures { result ≡ record { unit = r.now.unit; first = r.now.sector; many = moved_by r.now; written = writes r.now } }
    {
        Sectors {
            unit: r.unit,
            first: r.sector,
            many: moved(r),
            written: crate::writes(*r),
        }
    }

    // They have one in common with those of another command, and one of the two writes it. Sectors of different units never have.
    fn meet(self, others: Sectors) -> bool
        ensures { result ≡ ((self.written || others.written) && overlap (sectors_of self.unit self.first self.many) (sectors_of others.unit others.first others.many)) }
    {
        (self.written || others.written)
            && self.unit == others.unit
            && ranges::crosses(self.first, self.many, others.first, others.many)
    }
}

// Where a range begins that begins at a, as a hull counts it.
fn begins(a: u32) -> u32
    ensures { result ≡ nearer a }
{
    a.min(FAR)
}

impl Hull {
    // The hull of nothing: it begins past all ranges, so its zeros would not do.
    fn of_nothing() -> Hull
        ensures { result ≡ hull_of [] }
    {
        Hull {
            low: FAR,
            high: 0,
            bytes: 0,
        }
    }

    // With some bytes more within it.
    fn with(self, more: Bytes) -> Hull
        requires { (self.bytes ≤ most_bytes) × (more.many ≤ most_added) }
        ensures { result ≡ hull_with self (bytes more.from more.many) }
    {
        let from = begins(more.from);
        Hull {
            low: self.low.min(from),
            high: self.high.max(from + more.many),
            bytes: self.bytes + more.many,
        }
    }

    // They have a byte in common.
    fn meets(self, other: Hull) -> bool
        ensures { result ≡ hulls_meet self other }
    {
        self.low.max(other.low) < self.high.min(other.high)
    }
}

// A footprint of nothing, all zeros.
// stays: docs/CONTRACTS.md names it; its zeros are the derived default.
pub fn no_footprint() -> Footprint
    ensures { result ≡ no_footprint }
{
    Footprint::default()
}

// The hull of the ranges of a list.
fn list_hull(list: &[Link]) -> Hull
    requires { length list.now ≤ most_links }
    ensures { result ≡ hull_of (map range_of list.now) }
{
    let mut h = Hull::of_nothing();
    for x in list {
        h = h.with(Bytes::from(*x));
    }
    h
}

// The first n ranges of a list.
fn first(list: &[Link; 32], n: u16) -> &[Link]
    ensures value { result.now ≡ take n list.now }
    ensures few { length result.now ≤ most_links }
{
    &list[..links::held(n)]
}

// The ranges of a command that has a list.
pub fn links_of(r: &Record) -> &[Link]
    ensures value { result.now ≡ links_of r.now }
    ensures few { length result.now ≤ most_links }
{
    first(&r.list, r.ranges)
}

// The bytes that a command without a list moves.
fn plain_data(r: &Record) -> Bytes
    ensures value { result ≡ record { from = r.now.address; many = sector_bytes * r.now.count } }
    ensures within { result.many ≤ most_added }
{
    Bytes {
        from: r.address,
        many: drive::SECTOR_BYTES as u32 * r.count as u32,
    }
}

// The hull of a command's data; of nothing where it moves none.
pub(crate) fn data_hull(r: &Record) -> Hull
    ensures { result ≡ data_hull r.now }
{
    if !crate::transfers(*r) {
        return Hull::of_nothing();
    }
    if r.ranges == 0 {
        return Hull::of_nothing().with(plain_data(r));
    }
    list_hull(links_of(r))
}

// How many sectors a command moves: a transfer with code 00 its count, every other none.
pub(crate) fn moved(r: &Record) -> u32
    ensures { result ≡ moved_by r.now }
{
    if crate::transfers(*r) {
        r.count as u32
    } else {
        0
    }
}

// The footprint of a command.
pub fn footprint_of(r: &Record) -> Footprint
    ensures { result ≡ footprint_of r.now }
{
    Hulled::of(r).footprint()
}

impl Footprint {
    // The status bytes of the one have a byte in common with the hull of the other. Mostly they end before it begins, so this is asked first.
    fn status_meets(self, other: Footprint) -> bool
        ensures { result ≡ status_meets self other }
    {
        let from = begins(self.status);
        if from + STATUS_BYTES <= other.hull.low {
            return false;
        }
        from.max(other.hull.low) < (from + STATUS_BYTES).min(other.hull.high)
    }

    // The hulls of both have a byte in common, and one of them writes data: it reads sectors.
    fn data_meets(self, other: Footprint) -> bool
        ensures { result ≡ data_meets self other }
    {
        (self.reads || other.reads) && self.hull.meets(other.hull)
    }

    // Its sectors.
    fn moved(self) -> Sectors
        ensures { result ≡ record { unit = self.unit; first = self.sector; many = self.sectors; written = self.writes } }
    {
        Sectors {
            unit: self.unit,
            first: self.sector,
            many: self.sectors,
            written: self.writes,
        }
    }
}

// Two commands with these footprints may conflict: a close writes status bytes, a Read writes its data, a Write its sectors.
#[tactic(auto, unfolding(crate::specs::Footprints::footprints_meet))]
pub fn footprints_meet(f: Footprint, g: Footprint) -> bool
    ensures { result ≡ footprints_meet f g }
{
    ranges::crosses(f.status, STATUS_BYTES, g.status, STATUS_BYTES)
        || f.status_meets(g)
        || g.status_meets(f)
        || f.data_meets(g)
        || f.moved().meet(g.moved())
}

// The status bytes of a command.
fn status(r: &Record) -> Bytes
    ensures { result ≡ record { from = r.now.iopb; many = 4 } }
{
    Bytes {
        from: r.iopb,
        many: STATUS_BYTES,
    }
}

// Some bytes have one in common with some range of a list.
fn list_meets(list: &[Link], these: Bytes) -> bool
    ensures { result ≡ some_of (λ x. overlap (bytes these.from these.many) (range_of x)) list.now }
{
    list.iter().any(|x| these.meet(Bytes::from(*x)))
}

// Some bytes have one in common with the data of a command.
#[tactic(auto, using(meaning::proofs::Tests::some_map))]
fn meet_data(these: Bytes, r: &Record) -> bool
    ensures { result ≡ some_of (overlap (bytes these.from these.many)) (moved_data r.now) }
{
    if !crate::transfers(*r) {
        return false;
    }
    if r.ranges == 0 {
        return these.meet(plain_data(r));
    }
    list_meets(links_of(r), these)
}

// Some range of a list has a byte in common with the data of a command.
// stays: it and `data_shared` are no twins of the two above but by their shape; one function for both would take the test as a closure, and
// its contract would speak of that closure's calls, which is longer than these lines.
fn list_meets_data(list: &[Link], r: &Record) -> bool
    ensures { result ≡ some_of (λ x. some_of (overlap (range_of x)) (moved_data r.now)) list.now }
{
    list.iter().any(|x| meet_data(Bytes::from(*x), r))
}

// The data of two commands has a byte in common.
#[tactic(auto, using(meaning::proofs::Tests::some_map))]
fn data_shared(r: &Record, s: &Record) -> bool
    ensures { result ≡ meet (moved_data r.now) (moved_data s.now) }
{
    if !crate::transfers(*r) {
        return false;
    }
    if r.ranges == 0 {
        return meet_data(plain_data(r), s);
    }
    list_meets_data(links_of(r), s)
}

// Their data has a byte in common, and one of them writes it: it reads sectors.
fn data_conflicts(r: &Record, s: &Record) -> bool
    ensures { result ≡ data_conflicts r.now s.now }
{
    (crate::reads(*r) || crate::reads(*s)) && data_shared(r, s)
}

// Two commands conflict, by their ranges pair by pair.
#[tactic(auto, using(crate::proofs::Touching::conflict_is), unfolding(crate::proofs::Touching::five))]
pub fn ranges_conflict(r: &Record, s: &Record) -> bool
    ensures { result ≡ touch.conflict r.now s.now }
{
    status(r).meet(status(s))
        || meet_data(status(r), s)
        || meet_data(status(s), r)
        || data_conflicts(r, s)
        || Sectors::of(r).meet(Sectors::of(s))
}
