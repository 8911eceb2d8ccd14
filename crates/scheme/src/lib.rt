// One refinement step on a net: definitions in specs/, laws in proofs/. No function.
#![tactic(auto)]
