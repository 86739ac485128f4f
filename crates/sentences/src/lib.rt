// Document 01's sentences on error rows, in specs/ and proofs/. No code stands on it.
#![tactic(auto)]
