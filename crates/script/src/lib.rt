// Document 01, 'The script program': a line read as a step.
#![tactic(auto)]

mod reading;

pub use reading::{LINE_ROOM, read_line};
