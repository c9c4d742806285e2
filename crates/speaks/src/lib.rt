// Examples on which the promises say something, worked by computing the definitions. A crate of their own, since that takes longer than all
// proofs of `promises` together. Nothing here runs.
#![tactic(auto)]
