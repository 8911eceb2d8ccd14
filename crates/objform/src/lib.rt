// Wavefront OBJ as the program reads it: the form and the net that a text writes in specs/, laws in proofs/. No function.
#![tactic(auto)]
