// Theorems over the definitions, in proofs/. There is no code here.
#![tactic(auto)]
