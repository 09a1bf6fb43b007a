// No code: specs/ has messages for which the prover computes the opening, the run and what the hosts see, so that `promise` is not empty.
#![tactic(auto)]
