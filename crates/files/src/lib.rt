// Document 02, request Five: sequence files, written from an Idle channel and read into one.
#![tactic(auto)]

mod format;
mod single;
mod whole;

pub use format::{Fault, HEADER, LARGEST, fault_of};
pub use single::{load, save};
pub use whole::{load_into, save_from};
