// Demands 1 to 3 and request (xiii) of the public functions, for any sequence of calls (proofs/): no code.
