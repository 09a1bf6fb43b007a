// No code: specs/ states and proofs/ proves, over every run of calls, which channels are open at both ends and whose words a receiver stores.
#![tactic(auto)]
