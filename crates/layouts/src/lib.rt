// No code: how words lie in the cells makes no difference to any call.
#![tactic(auto)]
