// A step, whom it concerns, and what it answers.
#![tactic(auto)]

mod answer;
mod keys;
mod map;

pub use answer::{PartAnswer, act_at, no_acts};
pub use keys::{is_ctrlpreset, op_writes, wide_writes};
pub use map::{Ctrl, Op, Step, Target, Wide, target_of};
