// No code: who wins a vote, over any kind of choice, and the laws that everything above uses of it.
#![tactic(auto)]
