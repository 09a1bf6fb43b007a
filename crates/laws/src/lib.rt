// No code: specs/ has what the definitions and proofs of every crate share.
#![tactic(auto)]
