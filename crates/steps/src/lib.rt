// No code: steps 2 to 5 of a batch as definitions, with the laws of their sentences; crates above hold the loops.
#![tactic(auto)]
