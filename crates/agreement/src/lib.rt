// No code: that replicas agree, for every list of calls, stands in specs/ and proofs/.
#![tactic(auto)]
