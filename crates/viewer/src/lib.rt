// A viewer over lent memory shows one IOPB field by field: it keeps the memory and the address, and whether its making was refused (View 1
// to 7). Its methods are thin: each takes it apart and leaves the work to a function over the slice and the address. `view` shows all
// fields at once, to a caller that keeps no viewer.
#![tactic(auto)]

ghost use Rattle.std.specs.Prelude.{◌≡◌};
ghost use Rattle.meaning.specs.Fields as iopb;
ghost use Rattle.meaning.specs.Refusals.{told};
ghost use Rattle.meaning.specs.View.{made_number, made, view_of};
ghost use Rattle.viewer.specs.Seen.{seen};

use meaning::Iopb;
use meaning::refusals::{Refusal, number_of};

#[derive(Clone, Copy)]
pub struct Viewer<'a> {
    pub memory: &'a [u8],
    pub at: u32,
    // why its making was refused, if it was
    pub made: Result<(), Refusal>,
}

// Whether the making of a viewer is refused: by 2 for an odd address, then by 3 for thirty bytes not all in memory.
pub fn view_number(memory: &[u8], at: u32) -> Result<(), Refusal>
    ensures { told result ≡ made_number memory.now at }
{
    if at % 2 == 1 {
        return Err(Refusal::OddAddress);
    }
    if !iopb::all_in(memory, at) {
        return Err(Refusal::OutsideMemory);
    }
    Ok(())
}

// The memory that a viewer keeps: an empty part for a refused one.
pub fn view_memory(memory: &[u8], at: u32) -> &[u8]
    ensures { result.now ≡ (made memory.now at).memory }
{
    match view_number(memory, at) {
        Ok(()) => memory,
        Err(_) => &memory[..0],
    }
}

// The address that a viewer keeps: 0 for a refused one.
pub fn view_at(memory: &[u8], at: u32) -> u32
    ensures { result ≡ (made memory.now at).at }
{
    match view_number(memory, at) {
        Ok(()) => at,
        Err(_) => 0,
    }
}

// A viewer of the IOPB at an address.
pub fn make<'a>(memory: &'a [u8], at: u32) -> Viewer<'a>
    ensures { seen result ≡ made memory.now at }
{
    Viewer {
        memory: view_memory(memory, at),
        at: view_at(memory, at),
        made: view_number(memory, at),
    }
}

// The number of the making and every field, as a viewer of the IOPB at an address shows them: 0 where the making is refused.
// stays: the struct with a number beside the fields is that of the C interface.
pub fn view(memory: &[u8], at: u32) -> Iopb
    ensures { result ≡ view_of memory.now at }
{
    let viewer = make(memory, at);
    Iopb {
        data_address: viewer.data_address(),
        next_address: viewer.next_address(),
        count: viewer.count(),
        cylinder: viewer.cylinder(),
        number: viewer.number(),
        errs: viewer.errs(),
        done: viewer.done(),
        chen: viewer.chen(),
        sgm: viewer.sgm(),
        command: viewer.command(),
        completion: viewer.completion(),
        wrpt: viewer.wrpt(),
        oncl: viewer.oncl(),
        drdy: viewer.drdy(),
        internal: viewer.internal(),
        subfunction: viewer.subfunction(),
        unit: viewer.unit(),
        head: viewer.head(),
        sector: viewer.sector(),
    }
}

impl<'a> Viewer<'a> {
    // The number of the making: 0 where it was not refused.
    pub fn number(self) -> u8
        ensures { result ≡ told self.entry.made }
    {
        number_of(self.made)
    }

    // ERRS.
    pub fn errs(self) -> u8
        ensures { result ≡ iopb.errs self.entry.memory.now self.entry.at }
    {
        iopb::errs(self.memory, self.at)
    }

    // DONE.
    pub fn done(self) -> u8
        ensures { result ≡ iopb.done self.entry.memory.now self.entry.at }
    {
        iopb::done(self.memory, self.at)
    }

    // CHEN: another IOPB follows.
    pub fn chen(self) -> u8
        ensures { result ≡ iopb.chen self.entry.memory.now self.entry.at }
    {
        iopb::chen(self.memory, self.at)
    }

    // SGM: scatter and gather.
    pub fn sgm(self) -> u8
        ensures { result ≡ iopb.sgm self.entry.memory.now self.entry.at }
    {
        iopb::sgm(self.memory, self.at)
    }

    // The command.
    pub fn command(self) -> u8
        ensures { result ≡ iopb.command self.entry.memory.now self.entry.at }
    {
        iopb::command(self.memory, self.at)
    }

    // The completion code.
    pub fn completion(self) -> u8
        ensures { result ≡ iopb.completion self.entry.memory.now self.entry.at }
    {
        iopb::completion(self.memory, self.at)
    }

    // WRPT.
    pub fn wrpt(self) -> u8
        ensures { result ≡ iopb.wrpt self.entry.memory.now self.entry.at }
    {
        iopb::wrpt(self.memory, self.at)
    }

    // ONCL.
    pub fn oncl(self) -> u8
        ensures { result ≡ iopb.oncl self.entry.memory.now self.entry.at }
    {
        iopb::oncl(self.memory, self.at)
    }

    // DRDY.
    pub fn drdy(self) -> u8
        ensures { result ≡ iopb.drdy self.entry.memory.now self.entry.at }
    {
        iopb::drdy(self.memory, self.at)
    }

    // The internal status.
    pub fn internal(self) -> u8
        ensures { result ≡ iopb.internal self.entry.memory.now self.entry.at }
    {
        iopb::internal(self.memory, self.at)
    }

    // The subfunction.
    pub fn subfunction(self) -> u8
        ensures { result ≡ iopb.subfunction self.entry.memory.now self.entry.at }
    {
        iopb::subfunction(self.memory, self.at)
    }

    // The unit.
    pub fn unit(self) -> u8
        ensures { result ≡ iopb.unit self.entry.memory.now self.entry.at }
    {
        iopb::unit(self.memory, self.at)
    }

    // The count of sectors.
    pub fn count(self) -> u16
        ensures { result ≡ iopb.count self.entry.memory.now self.entry.at }
    {
        iopb::count(self.memory, self.at)
    }

    // The cylinder.
    pub fn cylinder(self) -> u16
        ensures { result ≡ iopb.cylinder self.entry.memory.now self.entry.at }
    {
        iopb::cylinder(self.memory, self.at)
    }

    // The head.
    pub fn head(self) -> u8
        ensures { result ≡ iopb.head self.entry.memory.now self.entry.at }
    {
        iopb::head(self.memory, self.at)
    }

    // The sector on its track.
    pub fn sector(self) -> u8
        ensures { result ≡ iopb.sector self.entry.memory.now self.entry.at }
    {
        iopb::sector(self.memory, self.at)
    }

    // The data address.
    pub fn data_address(self) -> u32
        ensures { result ≡ iopb.data_address self.entry.memory.now self.entry.at }
    {
        iopb::data_address(self.memory, self.at)
    }

    // The next IOPB's address.
    pub fn next_address(self) -> u32
        ensures { result ≡ iopb.next_address self.entry.memory.now self.entry.at }
    {
        iopb::next_address(self.memory, self.at)
    }
}
