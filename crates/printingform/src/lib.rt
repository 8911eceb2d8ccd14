// The program's answers as text, from tables, and the room that they take, in specs/, laws in proofs/. No function.
#![tactic(auto)]
