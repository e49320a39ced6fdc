// The part, a PCA9663 or a PCU9669: three channels over one lent memory.
#![tactic(auto)]

mod registers;
mod state;
mod step;

pub use state::{Part, PartStepped};
