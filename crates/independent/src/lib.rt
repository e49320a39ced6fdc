// The three channels do not disturb each other: statement and proof only, no code.
#![tactic(auto)]
