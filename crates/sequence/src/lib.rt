// Document 01, 'A sequence on the wires', as far as it needs no record of a channel: its enums, its decisions, the walks that they leave, and a byte stored.
#![tactic(auto)]

mod walk;
mod wires;

pub use walk::{end_walk, idle_walk, no_flags, waiting_walk};
pub use wires::{
    Ask, Beat, Beginning, Ending, Fault, Move, Next, Tail, Turn, again_by, ask_of, begins,
    edge_beat, ends, fld_after, halted, masked, next_byte, next_move, reach, rest, stop_by, store,
    turn_of,
};
