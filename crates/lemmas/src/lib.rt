// General lemmas: see `proofs/`. There is no code here.
#![tactic(auto)]
