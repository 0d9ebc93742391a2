// Wrong bodies that the contracts of the public functions shut out, each as a fact (proofs/): no code.
