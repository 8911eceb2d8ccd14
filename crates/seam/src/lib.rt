// Boundary segments read from a net, and the seam of two nets: definitions in specs/, laws in proofs/. No function.
#![tactic(auto)]
