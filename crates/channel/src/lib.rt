// One channel, Fm+ or UFm: its record, and its step.
// Its bytes are a slice, whose length the contracts ask for: the part lends a piece of its memory, and as an array that would be a branch that never runs.
#![tactic(auto)]

mod access;
mod range;
mod state;
mod step;
mod wires;

pub use state::{Channel, Stepped};
pub use step::range_number;
