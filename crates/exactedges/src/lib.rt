// The exact point of an edge: its far points, its flag and its scale in specs/, laws in proofs/. No function.
#![tactic(auto)]
