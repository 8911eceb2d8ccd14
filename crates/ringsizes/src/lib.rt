// The sizes of the rings of vertices and which vertices they call ordinary: definitions in specs/, laws in proofs/. No function.
#![tactic(auto)]
