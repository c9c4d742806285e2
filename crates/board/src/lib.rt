// The board's work on an accepted table, where the caller lent it: the steps of a command, a pick, and the two runs.
#![tactic(auto)]

pub mod pick;
pub mod run;
pub mod step;
pub mod table;

// How many records a table has here: the most commands of a chain.
pub(crate) const RECORDS: usize = chain::walk::MOST_COMMANDS;
