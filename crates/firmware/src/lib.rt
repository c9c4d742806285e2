// The firmware as C and Rust programs link it: every function here that is exported works on what its caller lends, memory, images and
// a table of at least 32 records, and refuses by the numbers of the rules. include/rosadenca.h declares them for C.
#![tactic(auto)]

pub mod look;
pub mod place;
pub mod table;
pub mod view;
