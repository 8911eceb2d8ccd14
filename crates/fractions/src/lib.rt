// Exact fractions: the definitions are in specs/, their laws are in proofs/. No function.
#![tactic(auto)]
