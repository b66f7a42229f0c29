// No code: the marked examples of document 01 as rows of one table, under one theorem about the definitions.
#![tactic(auto)]
