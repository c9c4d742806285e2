// Demand 3 as theorems about the definitions: any picks, then the rest as written, come to the chain as written. Nothing here runs.
#![tactic(auto)]
