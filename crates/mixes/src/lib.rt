// Mixes of three lists of steps, and the theorems that steps which keep apart can be mixed, and that every order is a mix: definitions and laws only, no code.
#![tactic(auto)]
