// The chain of commands in host memory: the sizes that all calls test, what the walk copies from an IOPB and its link list, the code that
// the command will get, and the walk itself: where the IOPBs of a chain are, the record of each, and the table that they fill.
#![tactic(auto)]

pub mod code;
pub mod links;
pub mod ranges;
pub mod sizes;
pub mod walk;
