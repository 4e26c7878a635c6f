// Definitions and laws that every crate cites. They stand in specs/ and proofs/; there is no function here.
#![tactic(auto)]
