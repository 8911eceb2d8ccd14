// Exact integers: definitions that other crates' statements use are in specs/, the laws of ℤ are in proofs/. No function.
#![tactic(auto)]
