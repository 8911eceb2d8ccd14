// Half-edges, vertices and the boundary of a net: the definitions are in specs/, their laws are in proofs/. No function.
#![tactic(auto)]
