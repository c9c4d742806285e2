// Demands 1 and 2 as theorems about the definitions that the contracts cite. Nothing here runs.
#![tactic(auto)]
