// Registers, what a word touches, rearrangements and runs, on any machine: definitions in specs/, laws and theorems in proofs/. There is no code.
#![tactic(auto)]
