// The bench: it reads a deck from standard input and prints the lines of what comes of it.
#![tactic(auto)]

ghost use Rattle.bench.specs.Within.{Within};

use deck::{laid, lines};
use std::io;
use std::io::{Read, Stdin, Stdout, Write};

// The most bytes that a deck can have, and one more, by which an input that is longer shows.
const ROOM: usize = laid::RECORD_BYTES * laid::MOST_RECORDS + 1;

// Reads standard input to its end, however its bytes arrive, or until the run is full: how many bytes there are.
fn read_all(input: &mut Stdin, run: &mut [u8]) -> io::Result<usize>
    ensures { Within result run.new }
{
    let mut n = 0;
    // stays: n counts the bytes that have come, and the library's reading to the end wants a heap
    while n < run.len() {
        let more = input.read(&mut run[n..])?;
        if more == 0 {
            break;
        }
        n += more;
    }
    Ok(n)
}

// The lines of a deck go to standard output.
fn print(output: &mut Stdout, bytes: &[u8]) -> io::Result<()> {
    let mut text = [0u8; lines::MOST_BYTES];
    let length = lines::print_deck(bytes, &mut text);
    output.write_all(&text[..length])
}

fn main(rt: HostRuntime) -> io::Result<()> {
    let mut run = [0u8; ROOM];
    let n = read_all(&mut rt.stdin(), &mut run).map_err(|_| io::Error::other("standard input"))?;
    print(&mut rt.stdout(), &run[..n])
}
