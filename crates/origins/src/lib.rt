// Which rule made each refined point: definitions in specs/, laws in proofs/. No function.
#![tactic(auto)]
