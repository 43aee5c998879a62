// Theorems about the definitions of `model`. There is no code here: `proofs/` holds a file for each subject.
#![tactic(auto)]
