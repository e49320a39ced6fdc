// A channel without its tables: its registers and settings, flags, pointers, the walk of its sequence, and the rules that need no table, or one.
#![tactic(auto)]

mod access;
mod range;
mod state;
mod wires;

pub use state::{Answer, Head, Settings};
