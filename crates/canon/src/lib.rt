// What the key of a text is, and what is true of every key: definitions in specs/, laws in proofs/. There is no function here.
#![tactic(auto)]
