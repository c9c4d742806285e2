// Why a call refuses: each reason has the number that the rules give it, by which C and the bench are told.
ghost use Rattle.std.specs.Prelude.{◌≡◌};
ghost use Rattle.meaning.specs.Refusals.{number_of, told};

#[derive(Clone, Copy, Debug, PartialEq, Eq)]
pub enum Refusal {
    // 1: memory, an image or a table of a wrong size, or a drive that cannot be
    WrongSize,
    // 2: an odd address
    OddAddress,
    // 3: an IOPB that is not all in memory
    OutsideMemory,
    // 4: an IOPB that shares a byte with an earlier one
    SharedIopb,
    // 5: a chain of more than 32 commands
    LongChain,
    // 6: a command that waits for an earlier one
    Waits,
    // 7: a command that is finished
    Finished,
    // 8: a place past the last command
    NoPlace,
    // 9: a record that no table in use may hold
    Spoiled,
    // 10: a sector that the drive has not
    NoSector,
    // 11: a unit that is absent
    NoUnit,
}

impl From<Refusal> for u8 {
    ghost from_gives = { λ r n. n ≡ number_of r };

    fn from(refusal: Refusal) -> u8 {
        match refusal {
            Refusal::WrongSize => 1,
            Refusal::OddAddress => 2,
            Refusal::OutsideMemory => 3,
            Refusal::SharedIopb => 4,
            Refusal::LongChain => 5,
            Refusal::Waits => 6,
            Refusal::Finished => 7,
            Refusal::NoPlace => 8,
            Refusal::Spoiled => 9,
            Refusal::NoSector => 10,
            Refusal::NoUnit => 11,
        }
    }
}

// The number that an answer tells: 0 where nothing is refused.
pub fn number_of(answer: Result<(), Refusal>) -> u8
    ensures { result ≡ told answer }
{
    match answer {
        Ok(()) => 0,
        Err(refusal) => u8::from(refusal),
    }
}
