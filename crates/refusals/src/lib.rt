// Refusals 6 to 12 as tests that compute: they are in specs/, what they mean for a net is in proofs/. No function.
#![tactic(auto)]
