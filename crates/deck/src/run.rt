// What comes of a deck: the chain that it lays is walked from 0 and run as written to its end.
ghost use Rattle.std.specs.Prelude.{◌≡◌, ◌≤◌, ◌-◌, [], take, drop, replicate};
ghost use Rattle.meaning.specs.Store.{lent, images};
ghost use Rattle.meaning.specs.Drives.{drives_of};
ghost use Rattle.meaning.specs.Bench.{outcome_of};
ghost use Rattle.deck.specs.Meant.{Reports, codes_of, chain_outcome};

use crate::{RanChain, Refused, laid};
use board::run;
use chain::walk;
use meaning::lends::{LentDisks, LentStore};
use meaning::{LentDrives, Record};

// The codes of the commands, in front of zeros.
// stays: the whole table and a count, since the check knows its length here and not where the walk answers it
fn codes_of(table: &[Record; 32], commands: usize) -> [u8; 32]
    requires { commands ≤ 32 }
    ensures codes { take commands result ≡ codes_of (take commands table.now) }
    ensures rest { drop commands result ≡ replicate (32 - commands) 0 }
{
    let mut codes = [0u8; 32];
    for (place, command) in table[..commands].iter().enumerate() {
        codes[place] = command.code;
    }
    codes
}

// The chain at 0 in memory: walked, and run as written to its end. The units above 0 have empty images.
fn run_chain(memory: &mut [u8], image: &mut [u8], l: LentDrives) -> Result<RanChain, Refused>
    ensures { Reports (chain_outcome (drives_of l) (lent memory.old (images image.old [] [] []))) result }
{
    let mut table = tables::no_records();
    let disks = LentDisks {
        image0: image,
        image1: &[],
        image2: &[],
        image3: &[],
        drives: l,
    };
    let commands = match walk::walk_into(memory, disks, 0, &mut table) {
        Ok(commands) => commands,
        Err(refusal) => return Err(Refused::NoChain(refusal)),
    };
    let codes = codes_of(&table, commands);
    let budget = run::chain_steps(&table, commands);
    let mut store = LentStore {
        memory,
        image0: image,
        image1: &mut [],
        image2: &mut [],
        image3: &mut [],
        drives: l,
    };
    let ran = run::run_written(&mut store, &mut table, commands, budget);
    Ok(RanChain {
        commands,
        steps: ran.steps,
        codes,
    })
}

// What comes of the bytes of a deck.
pub fn run_deck(bytes: &[u8]) -> Result<RanChain, Refused>
    ensures { Reports (outcome_of bytes.now) result }
{
    if !laid::is_deck(bytes) {
        return Err(Refused::NoDeck);
    }
    let mut memory = [0u8; laid::MEMORY_BYTES];
    let mut image = [0u8; laid::IMAGE_BYTES];
    laid::lay(bytes, &mut memory);
    laid::fill_image(&mut image);
    run_chain(&mut memory, &mut image, laid::bench_drives(bytes))
}
