// What walks of a function's code by hand share: laws of the toolchain's own calculus. Its borrow checker covers every function of today's,
// so only the lemmas of `viewer` stand on them. Nothing here runs.
#![tactic(auto)]
