// What the program prints for a text in specs/, laws in proofs/. No function.
#![tactic(auto)]
