// No code: the reference state that every replica is held against stands in specs/.
#![tactic(auto)]
