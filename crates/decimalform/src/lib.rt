// Numbers as text: how they are written and read in specs/, laws in proofs/. No function.
#![tactic(auto)]
