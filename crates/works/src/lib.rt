// What a step of one channel is, whatever buffer of its own it carries, and that such steps keep apart: definitions and laws only, no code.
#![tactic(auto)]
