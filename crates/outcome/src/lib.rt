// What a refining call gives, and the seam of two calls: definitions in specs/, laws in proofs/. No function.
#![tactic(auto)]
