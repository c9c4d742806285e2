// The status bytes that a close posts, by the copied byte 0, the code, what would have fitted and the drive of the command's own unit (Step
// 5 to 9).
ghost use Rattle.std.specs.Prelude.{◌≡◌};
ghost use Rattle.meaning.specs.Drives.{drives_of};
ghost use Rattle.meaning.specs.Step as step;

use meaning::{Drive, LentDrives, Record};

// Byte 0: the copied one with DONE set, and ERRS set exactly if the code is not 00.
#[tactic(auto, unfolding(meaning::specs::Step::closing_byte0))]
fn closing_byte0(r: Record) -> u8
    ensures { result ≡ step.closing_byte0 r }
{
    let done = r.byte0 % 64 + 64;
    if r.code == 0 { done } else { done + 128 }
}

// Byte 2: on cylinder and ready, and WRPT for a protected drive.
fn drive_status(d: Drive) -> u8
    ensures { result ≡ step.drive_status d }
{
    if d.protected { 0x13 } else { 0x03 }
}

// Byte 3: how many sectors would have fitted, as the record has it, whatever the code.
fn internal_status(r: Record) -> u8
    ensures { result ≡ r.fitted }
{
    r.fitted
}

// What the close of a command posts: bytes 0 to 3 of its IOPB.
#[tactic(auto, unfolding(meaning::specs::Step::closing))]
pub fn posted(l: LentDrives, r: Record) -> [u8; 4]
    ensures { result ≡ step.closing (drives_of l) r }
{
    [
        closing_byte0(r),
        r.code,
        drive_status(units::drive_of(l, r.unit)),
        internal_status(r),
    ]
}
