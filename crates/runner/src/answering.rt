// The lines of a block answered in turn, each by a step of the part.
ghost use Rattle.std.specs.Prelude.{◌≡◌, ◌≤◌, length};
ghost use Rattle.part.specs.Facts.{Whole};
ghost use Rattle.script.specs.Grammar.{line_of};
ghost use Rattle.runner.specs.Run.{start, line_answer, after_line};
ghost use Rattle.runner.specs.Text.{number_after};
ghost use Rattle.runner.specs.Feeding.{Room, Answered};

use crate::lines::line_end;
use part::Part;
use steps::PartAnswer;

// How far a block is answered: the part, the number of the last step, the place of the next line in the block, and the output's next free place.
#[derive(Clone, Copy)]
pub struct Course {
    pub part: Part,
    pub step: u64,
    pub from: usize,
    pub at: usize,
}

// Does a line's step. A line that can't be read is no. 8 and leaves all.
fn do_line(part: &mut Part, mem: &mut [u8], line: &[u8]) -> PartAnswer
    requires { Whole part.old mem.old }
    ensures answer { result ≡ line_answer (start part.old mem.old) (line_of line.now) }
    ensures after { start part.new mem.new ≡ after_line (start part.old mem.old) (line_of line.now) }
{
    match script::read_line(line) {
        Some(step) => part.serve(mem, steps::target_of(step)),
        None => answers::unreadable(),
    }
}

// The number of the next step. It stays at the largest one, which no run reaches.
fn next_number(step: u64) -> u64
    ensures { result ≡ number_after step }
{
    step.saturating_add(1)
}

// Answers the lines that end in the block, from a place on. The course is handed in and back by value, as `Answered` relates the two.
pub fn answer_lines(s: Course, block: &[u8], mem: &mut [u8], out: &mut [u8]) -> Course
    requires { Whole s.part mem.old × (s.from ≤ length block.now) × Room block.now s.from s.at out.old }
    ensures { Answered block.now s mem.old out.old result mem.new out.new }
{
    let mut c = s;
    let mut end = line_end(block, c.from);
    // by places, as `line_end` promises them
    while end < block.len() {
        let answer = do_line(&mut c.part, mem, &block[c.from..end]);
        c.step = next_number(c.step);
        c.at = answers::write_answer(c.step, answer, c.part.interrupt(), out, c.at);
        c.from = end + 1;
        end = line_end(block, c.from);
    }
    c
}
