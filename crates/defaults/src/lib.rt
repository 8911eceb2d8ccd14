// The text form: its lines, the net that a text writes and the text of a net, an answer and a refusal in specs/, laws in proofs/. No function.
#![tactic(auto)]
