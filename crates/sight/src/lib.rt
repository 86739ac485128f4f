// The third demand: occurrences and bindings by sight, in specs/ and proofs/. No code stands on it.
#![tactic(auto)]
