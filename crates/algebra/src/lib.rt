// Mathematics only: the definitions stand in specs/, the laws and theorems in proofs/. There is no code here.

#![tactic(auto)]
