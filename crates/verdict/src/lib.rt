// The verdict on a call: definitions in specs/, laws in proofs/. No function.
#![tactic(auto)]
