// Laws of one refinement step on a net: whole-number definitions in specs/, laws in proofs/. No function.
#![tactic(auto)]
