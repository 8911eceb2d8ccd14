// One round on the faces of a net: the refined corners are in specs/, their laws are in proofs/. No function.
#![tactic(auto)]
