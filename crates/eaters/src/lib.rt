// The vocabulary in which the rules of tokens are written. It stands in specs/, and its laws in proofs/; there is no function here.
#![tactic(auto)]
