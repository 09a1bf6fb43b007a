// No code: specs/ has what the contracts of the calls come to. A refusal leaves everything as it was; every call leaves a state in range
// in range; a call at a unit leaves every other; and a move says the address that was missing exactly where it sets NXL.
#![tactic(auto)]
