// No code: specs/ states and proofs/ proves that a planned list starts, and what share of the slices each transmitter then gets.
#![tactic(auto)]
