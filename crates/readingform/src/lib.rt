// A net read from a text into tables: what it comes to in specs/, laws in proofs/. No function.
#![tactic(auto)]
