#![tactic(auto)]

// Upstream's clauses as facts of the model (proofs/), over upstream's own definitions (specs/): no code.
