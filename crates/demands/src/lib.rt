// What is asked of the operations, as theorems over their promises: they stand in proofs/, their words in specs/. There is no code here.

#![tactic(auto)]
