// No code: specs/ states and proofs/ proves what the whole link does with a message.
#![tactic(auto)]
