// Theorems about what the calls leave: specs and proofs. There is no code.
#![tactic(auto)]
