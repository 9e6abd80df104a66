#![tactic(auto)]

// Nothing runs here: the crate holds the definitions and theorems of specs/ and proofs/.
