// A step over the words is the model's step on what they stand for (proofs/): no code.
