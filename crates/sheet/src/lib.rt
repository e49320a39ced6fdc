// The bench sheet's ten P lines, a table that the checker computes: specs/Sheet.antt. No code.
#![tactic(auto)]
