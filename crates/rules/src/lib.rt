// The point rules without a net: definitions in specs/, laws in proofs/.
#![tactic(auto)]
