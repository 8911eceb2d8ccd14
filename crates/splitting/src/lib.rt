// A net with other faces split into quadrilaterals: the definitions are in specs/, their laws are in proofs/. No function.
#![tactic(auto)]
