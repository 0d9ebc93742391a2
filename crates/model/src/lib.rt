#![tactic(auto)]

// Document 01 as definitions (specs/) and what holds of every sequence of steps (proofs/): no code.
