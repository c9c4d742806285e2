// A deck of bytes: whether it is one, the chain that it lays in memory, what comes of it, and the bytes of the lines to print.
#![tactic(auto)]

pub mod laid;
pub mod lines;
pub mod run;

use meaning::refusals::Refusal;

// What comes of a deck whose chain ran: so many commands, in so many steps, and the codes of the commands in front of zeros.
// stays: the count beside the codes, since the report is one value only with the zeros in it (`EachHasOneReply`)
#[derive(Clone, Copy)]
pub struct RanChain {
    pub commands: usize,
    pub steps: u64,
    pub codes: [u8; 32],
}

// Why none runs: the bytes are no deck, or the walk refuses its chain.
#[derive(Clone, Copy, Debug, PartialEq, Eq)]
pub enum Refused {
    NoDeck,
    NoChain(Refusal),
}
