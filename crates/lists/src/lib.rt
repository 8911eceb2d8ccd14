// Lists as loops and tables write them: the definition is in specs/, its laws are in proofs/. No function.
#![tactic(auto)]
