// No code: that each refusal occurs exactly under its row, and in the order of the scope document, stands in specs/ and proofs/.
#![tactic(auto)]
