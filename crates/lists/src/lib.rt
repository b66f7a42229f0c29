// No code: definitions and laws of lists that every layer above shares.
#![tactic(auto)]
