//! Lemmas that the proofs of several crates cite, each stated once. There is no code here.
#![tactic(auto)]
