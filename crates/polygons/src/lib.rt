// Faces of 3 to 8 sides, given by their numbers of sides: the definitions are in specs/, their laws are in proofs/. No function.
#![tactic(auto)]
