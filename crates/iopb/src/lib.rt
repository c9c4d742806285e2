// The thirty bytes of an IOPB: each field (IOPB 3 to 14), read from a slice at an address.
// Numbers of several bytes have the high byte first. Where the thirty bytes are not all in the slice, every field is 0.
// stays: each function takes the slice and the address, since a viewer's readers stand over functions on a slice and a number (Form 4).
#![tactic(auto)]

ghost use Rattle.std.specs.Prelude.{◌≡◌, ◌<◌};
ghost use Rattle.meaning.specs.Fields as iopb;

// How many bytes an IOPB has.
pub const IOPB_BYTES: usize = 30;

// Whether all thirty bytes are in the slice.
pub fn all_in(m: &[u8], at: u32) -> bool
    ensures { result ≡ iopb.all_in m.now at }
{
    at as usize + IOPB_BYTES <= m.len()
}

// Byte k of the IOPB.
fn byte_of(m: &[u8], at: u32, k: usize) -> u8
    requires { k < 30 }
    ensures { result ≡ iopb.byte_of m.now at k }
{
    if all_in(m, at) { m[at as usize + k] } else { 0 }
}

// Bytes k and k + 1 as one number.
fn two_bytes(m: &[u8], at: u32, k: usize) -> u16
    requires { k < 29 }
    ensures { result ≡ iopb.two_bytes m.now at k }
{
    u16::from_be_bytes([byte_of(m, at, k), byte_of(m, at, k + 1)])
}

// Bytes k to k + 3 as one number.
fn four_bytes(m: &[u8], at: u32, k: usize) -> u32
    requires { k < 27 }
    ensures { result ≡ iopb.four_bytes m.now at k }
{
    u32::from_be_bytes([
        byte_of(m, at, k),
        byte_of(m, at, k + 1),
        byte_of(m, at, k + 2),
        byte_of(m, at, k + 3),
    ])
}

// Bit k of a byte.
fn bit(byte: u8, k: u32) -> u8
    requires { k < 8 }
    ensures { result ≡ iopb.bit k byte }
{
    byte >> k & 1
}

// Byte 0 whole.
pub fn byte0(m: &[u8], at: u32) -> u8
    ensures { result ≡ iopb.byte_of m.now at 0 }
{
    byte_of(m, at, 0)
}

// Byte 6 whole: how many elements the link list has, and the interrupt level.
pub fn byte6(m: &[u8], at: u32) -> u8
    ensures { result ≡ iopb.byte_of m.now at 6 }
{
    byte_of(m, at, 6)
}

// ERRS, bit 7 of byte 0.
pub fn errs(m: &[u8], at: u32) -> u8
    ensures { result ≡ iopb.errs m.now at }
{
    bit(byte_of(m, at, 0), 7)
}

// DONE, bit 6 of byte 0.
pub fn done(m: &[u8], at: u32) -> u8
    ensures { result ≡ iopb.done m.now at }
{
    bit(byte_of(m, at, 0), 6)
}

// CHEN, bit 5 of byte 0: another IOPB follows.
pub fn chen(m: &[u8], at: u32) -> u8
    ensures { result ≡ iopb.chen m.now at }
{
    bit(byte_of(m, at, 0), 5)
}

// SGM, bit 4 of byte 0: scatter and gather.
pub fn sgm(m: &[u8], at: u32) -> u8
    ensures { result ≡ iopb.sgm m.now at }
{
    bit(byte_of(m, at, 0), 4)
}

// The command, bits 3-0 of byte 0.
pub fn command(m: &[u8], at: u32) -> u8
    ensures { result ≡ iopb.command m.now at }
{
    byte_of(m, at, 0) % 16
}

// The completion code, byte 1.
pub fn completion(m: &[u8], at: u32) -> u8
    ensures { result ≡ iopb.completion m.now at }
{
    byte_of(m, at, 1)
}

// WRPT, bit 4 of byte 2.
pub fn wrpt(m: &[u8], at: u32) -> u8
    ensures { result ≡ iopb.wrpt m.now at }
{
    bit(byte_of(m, at, 2), 4)
}

// ONCL, bit 1 of byte 2.
pub fn oncl(m: &[u8], at: u32) -> u8
    ensures { result ≡ iopb.oncl m.now at }
{
    bit(byte_of(m, at, 2), 1)
}

// DRDY, bit 0 of byte 2.
pub fn drdy(m: &[u8], at: u32) -> u8
    ensures { result ≡ iopb.drdy m.now at }
{
    bit(byte_of(m, at, 2), 0)
}

// The internal status, byte 3.
pub fn internal(m: &[u8], at: u32) -> u8
    ensures { result ≡ iopb.internal m.now at }
{
    byte_of(m, at, 3)
}

// The subfunction, byte 4.
pub fn subfunction(m: &[u8], at: u32) -> u8
    ensures { result ≡ iopb.subfunction m.now at }
{
    byte_of(m, at, 4)
}

// The unit, bits 2-0 of byte 5.
pub fn unit(m: &[u8], at: u32) -> u8
    ensures { result ≡ iopb.unit m.now at }
{
    byte_of(m, at, 5) % 8
}

// The count of sectors, bytes 8-9.
pub fn count(m: &[u8], at: u32) -> u16
    ensures { result ≡ iopb.count m.now at }
{
    two_bytes(m, at, 8)
}

// The cylinder, bytes A-B.
pub fn cylinder(m: &[u8], at: u32) -> u16
    ensures { result ≡ iopb.cylinder m.now at }
{
    two_bytes(m, at, 0xA)
}

// The head, byte C.
pub fn head(m: &[u8], at: u32) -> u8
    ensures { result ≡ iopb.head m.now at }
{
    byte_of(m, at, 0xC)
}

// The sector on its track, byte D.
pub fn sector(m: &[u8], at: u32) -> u8
    ensures { result ≡ iopb.sector m.now at }
{
    byte_of(m, at, 0xD)
}

// The data address, bytes 10-13.
pub fn data_address(m: &[u8], at: u32) -> u32
    ensures { result ≡ iopb.data_address m.now at }
{
    four_bytes(m, at, 0x10)
}

// The next IOPB's address, bytes 14-17.
pub fn next_address(m: &[u8], at: u32) -> u32
    ensures { result ≡ iopb.next_address m.now at }
{
    four_bytes(m, at, 0x14)
}
