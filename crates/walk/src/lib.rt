// The walk's own machine, lists of calls, and demand 3: definitions and proofs, no code.
#![tactic(auto)]
