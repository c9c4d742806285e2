// The lines that the bench prints for a deck, as bytes: one piece after the other into a room that holds the longest lines, then
// copied to a lent run.
ghost use Rattle.std.specs.Prelude.{◌≡◌, ℕ, ◌+◌, ◌<◌, ◌≤◌, List, [], ◌∷◌, ◌++◌, length, Ok, Err};
ghost use Rattle.meaning.specs.Lines as lines;
ghost use Rattle.deck.specs.Meant.{meant};
ghost use Rattle.deck.specs.Put.{Put, PrintGives, most_bytes};

use crate::{RanChain, Refused, run};
use std::marker::Model;

// The most bytes that the lines of a deck can have: 32 commands, 10 of them with 5 and 22 with 6, and the line `steps 1024`.
pub const MOST_BYTES: usize = 193;

// What is written so far.
#[derive(Drop)]
struct Text {
    bytes: [u8; MOST_BYTES],
    length: usize,
}

impl Model for Text {
    ghost use Rattle.std.specs.Prelude.{ℕ, ◌≤◌, List, take};
    ghost use Rattle.deck.specs.Put.{most_bytes};

    ghost Value = { List ℕ };

    ghost view = { λ t. take t.length t.bytes };

    ghost invariant = { λ t. t.length ≤ most_bytes };
}

impl Text {
    // Nothing yet.
    fn new() -> Text
        ensures { result ≡ [] }
    {
        Text {
            bytes: [0; MOST_BYTES],
            length: 0,
        }
    }

    // One byte.
    fn put_byte(&mut self, byte: u8)
        requires { length self.old < most_bytes }
        ensures { self.new ≡ self.old ++ byte ∷ [] }
    {
        self.bytes[self.length] = byte;
        self.length += 1;
    }

    // A word.
    fn put_word(&mut self, word: &[u8])
        requires { length self.old + length word.now ≤ most_bytes }
        ensures { self.new ≡ self.old ++ word.now }
    {
        let end = self.length + word.len();
        self.bytes[self.length..end].copy_from_slice(word);
        self.length = end;
    }

    // A byte as two upper-case hex digits.
    // stays: `write!` may fail for all that its clauses say, even where there is room, and printing a deck cannot
    fn put_hex(&mut self, byte: u8)
        requires { length self.old + 2 ≤ most_bytes }
        ensures { self.new ≡ self.old ++ lines.hex byte }
    {
        self.put_byte(digit(byte / 16));
        self.put_byte(digit(byte % 16));
    }

    // A number in decimal, with no zeros before it.
    // stays: `write!` may fail for all that its clauses say, as with two hex digits
    fn put_decimal(&mut self, n: u64)
        requires { length self.old + length (lines.decimal n) ≤ most_bytes }
        ensures { self.new ≡ self.old ++ lines.decimal n }
    {
        if n < 10 {
            return self.put_byte(digit(n as u8));
        }
        self.put_decimal(n / 10);
        self.put_byte(digit((n % 10) as u8));
    }

    // The line of a command: its place in decimal, and its code.
    fn put_command(&mut self, place: usize, code: u8)
        requires { (place < 100) × (length self.old + 6 ≤ most_bytes) }
        ensures { self.new ≡ self.old ++ lines.command_lines place (code ∷ []) }
    {
        self.put_decimal(place as u64);
        self.put_byte(b' ');
        self.put_hex(code);
        self.put_byte(b'\n');
    }

    // The line of each command, from place 0 on, at the start.
    fn put_commands(&mut self, codes: &[u8])
        requires { (self.old ≡ []) × (length codes.now ≤ 32) }
        ensures put { self.new ≡ lines.command_lines 0 codes.now }
        ensures upper_bound { length self.new ≤ 182 }
    {
        for (place, code) in codes.iter().enumerate() {
            self.put_command(place, *code);
        }
    }

    // A line with a word and a number.
    fn put_count(&mut self, word: &[u8], n: u64)
        requires { length self.old + length word.now + length (lines.decimal n) + 2 ≤ most_bytes }
        ensures { self.new ≡ self.old ++ (word.now ++ lines.space ∷ lines.decimal n ++ lines.newline ∷ []) }
    {
        self.put_word(word);
        self.put_byte(b' ');
        self.put_decimal(n);
        self.put_byte(b'\n');
    }

    // The lines of a chain that ran, at the start.
    fn put_ran(&mut self, ran: &RanChain)
        requires { (self.old ≡ []) × (ran.now.commands ≤ 32) × (ran.now.steps ≤ 1_024) }
        ensures { self.new ≡ lines.lines_of (meant (Ok ran.now)) }
    {
        self.put_commands(&ran.codes[..ran.commands]);
        self.put_count(b"steps", ran.steps);
    }

    // The line of a refusal, at the start.
    fn put_refused(&mut self, refused: Refused)
        requires { self.old ≡ [] }
        ensures { self.new ≡ lines.lines_of (meant (Err refused)) }
    {
        match refused {
            Refused::NoDeck => self.put_word(b"deck\n"),
            Refused::NoChain(refusal) => self.put_count(b"chain", u64::from(u8::from(refusal))),
        }
    }

    // What is written goes to the start of a run: how many bytes it has.
    fn copy_to(&self, out: &mut [u8]) -> usize
        requires { most_bytes ≤ length out.old }
        ensures { Put out.old 0 self.now result out.new }
    {
        out[..self.length].copy_from_slice(&self.bytes[..self.length]);
        self.length
    }
}

// A digit of base 16: 0 to 9, then A to F.
fn digit(n: u8) -> u8
    requires { n < 16 }
    ensures { result ≡ lines.digit n }
{
    if n < 10 { b'0' + n } else { b'A' + (n - 10) }
}

// The lines of a deck, at the start of `out`: how many bytes they have; 0, with nothing written, where `out` is too short for the most.
// stays: a count of 0 and no error, since `PrintGives` promises it
pub fn print_deck(bytes: &[u8], out: &mut [u8]) -> usize
    ensures { PrintGives bytes.now out.old result out.new }
{
    if out.len() < MOST_BYTES {
        return 0;
    }
    let mut text = Text::new();
    match run::run_deck(bytes) {
        Ok(ran) => text.put_ran(&ran),
        Err(refused) => text.put_refused(refused),
    }
    text.copy_to(out)
}
