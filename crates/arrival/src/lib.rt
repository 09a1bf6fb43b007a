// No code: specs/ states and proofs/ proves that readings which are built, sent and received are those that were handed in, and when they are.
#![tactic(auto)]
