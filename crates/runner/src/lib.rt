// A script run on the part: the lines of a block of bytes, each a step, and the text of their answers.
#![tactic(auto)]

mod answering;
mod lines;

pub use answering::{Course, answer_lines};
pub use lines::{Start, kept, lengthen, line_end, no_line, put_start};
