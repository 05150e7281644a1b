// One rounding fact for every width: definitions in specs/, laws in proofs/. There is no code here.
#![tactic(auto)]
