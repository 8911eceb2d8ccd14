// The seam test of two nets: definitions in specs/, laws in proofs/. No function.
#![tactic(auto)]
