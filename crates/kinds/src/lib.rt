// The two parts and the kinds of their channels: statement and proof only, no code.
#![tactic(auto)]
