// No code: specs/ says and proofs/ proves what a transmitter and a receiver make of a whole message.
#![tactic(auto)]
