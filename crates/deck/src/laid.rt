// A deck and what it lays: records of 32 bytes, whose IOPBs go to memory, and the drives and image that the chain runs on.
ghost use Rattle.std.specs.Prelude.{◌≡◌, ◌+◌, ◌*◌, ◌/◌, ◌%◌, ◌≤◌, ◌&&◌, not, length, eqb, leb};
ghost use Rattle.meaning.specs.Sectors.{sector_bytes};
ghost use Rattle.meaning.specs.Deck as deck;

use meaning::{Drive, LentDrives};

// How many bytes a record has, and how many records a deck may have.
pub const RECORD_BYTES: usize = 32;

pub const MOST_RECORDS: usize = 32;

// The memory of the bench, and its image: 32 sectors of 512 bytes.
pub(crate) const MEMORY_BYTES: usize = 4096;

pub(crate) const IMAGE_BYTES: usize = 16384;

// Bytes 30 and 31 of record k: byte 31 of the first is 0 or 1, all others are 0.
fn fillers_right(bytes: &[u8], k: usize) -> bool
    requires { 32 * k + 32 ≤ length bytes.now }
    ensures { result ≡ deck.fillers_right bytes.now k }
{
    bytes[RECORD_BYTES * k + 30] == 0 && bytes[RECORD_BYTES * k + 31] <= u8::from(k == 0)
}

// Whether so many bytes are whole records, 1 to 32 of them.
fn whole_records(count: usize) -> bool
    ensures { result ≡ (not (eqb count 0) && eqb (count % 32) 0 && leb (count / 32) 32) }
{
    count != 0 && count % RECORD_BYTES == 0 && count / RECORD_BYTES <= MOST_RECORDS
}

// Whether the bytes are a deck.
pub fn is_deck(bytes: &[u8]) -> bool
    ensures { result ≡ deck.is_deck bytes.now }
{
    whole_records(bytes.len()) && (0..bytes.len() / RECORD_BYTES).all(|k| fillers_right(bytes, k))
}

// Byte 31 of the first record protects the drive.
fn protects(bytes: &[u8]) -> bool
    ensures { result ≡ eqb (deck.byte_in bytes.now 0 31) 1 }
{
    matches!(bytes.get(31), Some(1))
}

// The drive of the bench: maxima 1, 1 and 7, the last head's too, and protected where byte 31 of the first record says so.
pub fn bench_drive(bytes: &[u8]) -> Drive
    ensures { result ≡ deck.bench_drive bytes.now }
{
    Drive {
        cylinder: 1,
        head: 1,
        sector: 7,
        last_sector: 7,
        protected: protects(bytes),
        present: true,
    }
}

// The drives of the bench: unit 0 alone, all others absent.
pub fn bench_drives(bytes: &[u8]) -> LentDrives
    ensures { result ≡ deck.bench_drives bytes.now }
{
    let first = bench_drive(bytes);
    let none = Drive::default();
    LentDrives {
        units: [first, none, none, none],
    }
}

// The IOPB of record k goes to memory at 32 x k.
fn lay_record(bytes: &[u8], memory: &mut [u8], k: usize)
    requires { (32 * k + 32 ≤ length bytes.now) × (32 * k + 32 ≤ length memory.old) }
    ensures { memory.new ≡ deck.lay_record bytes.now memory.old k }
{
    let from = RECORD_BYTES * k;
    let end = from + iopb::IOPB_BYTES;
    memory[from..end].copy_from_slice(&bytes[from..end]);
}

// The memory of the bench: zeros, and the IOPB of each record at its place.
pub(crate) fn lay(bytes: &[u8], memory: &mut [u8])
    requires { (length memory.old ≡ deck.memory_bytes) × (deck.record_count bytes.now ≤ deck.most_records) }
    ensures { memory.new ≡ deck.bench_memory bytes.now }
{
    memory.fill(0);
    for k in 0..bytes.len() / RECORD_BYTES {
        lay_record(bytes, memory, k);
    }
}

// The image of the bench: 32 sectors, and every byte of sector n is n.
pub(crate) fn fill_image(image: &mut [u8])
    requires { length image.old ≡ sector_bytes * 32 }
    ensures { image.new ≡ deck.bench_image }
{
    for n in 0..32u8 {
        let at = 512 * usize::from(n);
        image[at..at + 512].fill(n);
    }
}
