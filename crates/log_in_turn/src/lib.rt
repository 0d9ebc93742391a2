// One after another, by log and report: what is read there (specs/), and that it is the same for every log whose replay ends with 0 (proofs/): no code.
