// No code: specs/ has what each function on the lent cells leaves, of their range and of every fitted unit's sides.
#![tactic(auto)]
