#![tactic(auto)]

// No code: the definitions and laws of specs/ serve the crates above.
