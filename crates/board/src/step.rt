// Steps of a command, one or several at once: its sectors move between memory and the image of its unit, and the last step closes the
// command. Sectors that follow each other lie side by side on the disk, and in memory either side by side too or in the ranges of a link
// list. One function goes from the unit to its image; all beneath it have one image, whatever the other units hold.
ghost use Rattle.std.specs.Prelude.{◌≡◌, map, ◌+◌, ◌*◌, ◌≤◌, true, length, ℕ};
ghost use Rattle.std.proofs.lemmas.List.Edits.{sets};
ghost use Rattle.meaning.specs.Sectors.{sector_bytes};
ghost use Rattle.meaning.specs.Drives.{drives_of};
ghost use Rattle.meaning.specs.Store.{Store, move};
ghost use Rattle.meaning.specs.Lends.{store_of, SameLent};
ghost use Rattle.meaning.specs.Links.{most_links, range_of};
ghost use Rattle.meaning.specs.Pieces.{piece_of};
ghost use Rattle.meaning.specs.Command.{remaining, transfers};
ghost use Rattle.meaning.specs.Step as step;
ghost use Rattle.meaning.proofs.All.{All};
ghost use Rattle.meaning.proofs.Conditions.{Inside};
ghost use Rattle.meaning.specs.Run.{steps_done};
ghost use Rattle.board.specs.OneUnit.{on_unit};
ghost use Rattle.board.specs.Ready.{Ready, ReadyIn};
ghost use Rattle.board.specs.Moved.{sectors_moved, part_move, piece_move, window_moved};

use command::{closing, touch};
use meaning::lends::LentStore;
use meaning::{LentDrives, Link, Record};

// The bytes of a sector, as a place in memory or image counts them.
const SECTOR_BYTES: usize = drive::SECTOR_BYTES as usize;

// What the next steps of a transfer move: the bytes of its data from lo up to hi, to memory where it reads. On the disk its data begins at
// `disk`.
#[derive(Clone, Copy)]
struct Window {
    reads: bool,
    disk: usize,
    lo: usize,
    hi: usize,
}

// The close: bytes 0 to 3 of the command's own IOPB, byte 0 from the copied one.
fn close(memory: &mut [u8], l: LentDrives, r: &Record)
    requires { r.now.iopb + 4 ≤ length memory.old }
    ensures { memory.new ≡ sets memory.old r.now.iopb (step.closing (drives_of l) r.now) }
{
    let at = r.iopb as usize;
    memory[at..at + 4].copy_from_slice(&closing::posted(l, *r));
}

// So many bytes move between memory, from the byte `at` on, and image, from the byte `disk` on: to memory where the command reads. All copies
// of a step are made here.
// stays: the direction is a flag, since a closure for each would have to hold both slices, and would be chosen by the same flag.
fn move_part(memory: &mut [u8], image: &mut [u8], reads: bool, at: usize, disk: usize, size: usize)
    requires { (at + size ≤ length memory.old) × (disk + size ≤ length image.old) }
    ensures { (u : ℕ) (s : Store) → on_unit u memory.new image.new s ≡ move (part_move u reads at disk size) (on_unit u memory.old image.old s) }
{
    if reads {
        memory[at..at + size].copy_from_slice(&image[disk..disk + size]);
    } else {
        image[disk..disk + size].copy_from_slice(&memory[at..at + size]);
    }
}

// So many sectors that lie side by side in memory too: one after another, since a copy of a length that the compiler knows is the faster.
fn move_plain(
    memory: &mut [u8],
    image: &mut [u8],
    reads: bool,
    at: usize,
    disk: usize,
    sectors: usize,
)
    requires { (at + sector_bytes * sectors ≤ length memory.old) × (disk + sector_bytes * sectors ≤ length image.old) }
    ensures { (u : ℕ) (s : Store) → on_unit u memory.new image.new s ≡ move (part_move u reads at disk (sector_bytes * sectors)) (on_unit u memory.old image.old s) }
{
    for k in 0..sectors {
        let done = SECTOR_BYTES * k;
        move_part(memory, image, reads, at + done, disk + done, SECTOR_BYTES);
    }
}

// What the range of an element holds of a window moves. The range begins at byte b of the data.
fn move_piece(memory: &mut [u8], image: &mut [u8], w: Window, x: &Link, b: usize)
    requires { (x.now.address + x.now.length ≤ length memory.old) × (w.disk + w.hi ≤ length image.old) }
    ensures { (u : ℕ) (s : Store) → on_unit u memory.new image.new s ≡ move (piece_move u w.reads w.disk (piece_of (range_of x.now) b w.lo w.hi)) (on_unit u memory.old image.old s) }
{
    let size = x.length as usize;
    let skip = w.lo.saturating_sub(b).min(size);
    let end = w.hi.saturating_sub(b).min(size);
    if end <= skip {
        return;
    }
    let at = x.address as usize + skip;
    move_part(memory, image, w.reads, at, w.disk + (b + skip), end - skip);
}

// A window moves, range after range of a list.
fn move_pieces(memory: &mut [u8], image: &mut [u8], w: Window, list: &[Link])
    requires { (length list.now ≤ most_links) × All (λ x. Inside (length memory.old) (range_of x)) list.now × (w.disk + w.hi ≤ length image.old) }
    ensures { (u : ℕ) (s : Store) → on_unit u memory.new image.new s ≡ window_moved u w.reads w.disk (map range_of list.now) 0 w.lo w.hi (on_unit u memory.old image.old s) }
{
    let mut b: usize = 0;
    for x in list {
        move_piece(memory, image, w, x, b);
        b += x.length as usize;
    }
}

// The sectors of the next n steps of a transfer move between memory and this image, which is that of its own unit.
fn move_sectors(memory: &mut [u8], image: &mut [u8], r: &Record, n: u32)
    requires { (transfers r.now ≡ true) × Ready n r.now (length memory.old) (length image.old) }
    ensures { (s : Store) → on_unit r.now.unit memory.new image.new s ≡ sectors_moved n r.now (on_unit r.now.unit memory.old image.old s) }
{
    let sectors = n as usize;
    let lo = SECTOR_BYTES * r.taken as usize;
    let w = Window {
        reads: command::reads(*r),
        disk: SECTOR_BYTES * r.sector as usize,
        lo,
        hi: lo + SECTOR_BYTES * sectors,
    };
    if r.ranges == 0 {
        let at = r.address as usize + lo;
        move_plain(memory, image, w.reads, at, w.disk + lo, sectors);
    } else {
        move_pieces(memory, image, w, touch::links_of(r));
    }
}

// The sectors of the next n steps of a command move between memory and the image of its own unit. A command that is no transfer moves none,
// whatever its unit.
// stays: an arm for each image, since the images are fields, and no proof covers a slice that several arms lend into one variable.
fn move_on_unit(store: &mut LentStore<'_>, r: &Record, n: u32)
    requires { (1 ≤ n) × ReadyIn n r.now (store_of store.old) }
    ensures same { SameLent store.old store.new }
    ensures done { store_of store.new ≡ sectors_moved n r.now (store_of store.old) }
{
    if !command::transfers(*r) {
        return;
    }
    match r.unit {
        0 => move_sectors(store.memory, store.image0, r, n),
        1 => move_sectors(store.memory, store.image1, r, n),
        2 => move_sectors(store.memory, store.image2, r, n),
        _ => move_sectors(store.memory, store.image3, r, n),
    }
}

// The next n steps of a command: its sectors move, and the last step then closes the command. Nothing else closes it.
pub(crate) fn take_steps(store: &mut LentStore<'_>, r: &Record, n: u32)
    requires { (n ≤ remaining r.now) × ReadyIn n r.now (store_of store.old) }
    ensures same { SameLent store.old store.new }
    ensures done { store_of store.new ≡ steps_done (drives_of store.old.drives) n r.now (store_of store.old) }
{
    if n == 0 {
        return;
    }
    move_on_unit(store, r, n);
    if n == command::remaining(*r) {
        close(store.memory, store.drives, r);
    }
}
