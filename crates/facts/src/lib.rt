// Facts on tests, lists and small whole numbers that several crates cite: specs/ and proofs/ have them. There is no code here.
#![tactic(auto)]
