// Theorems about the tick machine and the promise: see `proofs/`. There is no code here.
#![tactic(auto)]
