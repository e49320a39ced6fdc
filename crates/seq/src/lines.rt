// A script's lines run over the part, and how many of them were refused.
ghost use Rattle.std.specs.Prelude.{◌≡◌, ◌+◌, ◌<◌, ◌≤◌, length};
ghost use Rattle.runner.specs.Run.{start, line_answer, after_line};
ghost use Rattle.seq.specs.Lines.{input_room, none_yet, counted, Runs};

use part::{Part, PartStepped};
use rules::{DONE, Device};
use steps::Step;

// A refused line: which one it is, and its answer's number.
#[derive(Clone, Copy)]
pub struct Refused {
    pub line: u64,
    pub number: u8,
}

// The lines so far: how many there are, how many were refused, and the first of these.
#[derive(Clone, Copy)]
pub struct Tally {
    pub lines: u64,
    pub refused: u64,
    pub first: Option<Refused>,
}

// What a script leaves: the part, and the tally of its lines.
#[derive(Clone, Copy)]
pub struct Ran {
    pub part: Part,
    pub tally: Tally,
}

impl Tally {
    fn new() -> Self
        ensures { result ≡ none_yet }
    {
        Tally {
            lines: 0,
            refused: 0,
            first: None,
        }
    }

    // One more line, which got this number.
    fn count(&mut self, number: u8)
        requires { (self.old.lines < input_room) × (self.old.refused ≤ self.old.lines) }
        ensures { (self.new ≡ counted self.old number) × (self.new.lines ≡ self.old.lines + 1) × (self.new.refused ≤ self.new.lines) }
    {
        self.lines += 1;
        if number == DONE {
            return;
        }
        if self.refused == 0 {
            self.first = Some(Refused {
                line: self.lines,
                number,
            });
        }
        self.refused += 1;
    }
}

// A line that can't be read is no. 8, and leaves all. Not runner's `do_line`: that one requires `Whole`, which `run_lines` does not ask for.
fn do_line(part: Part, mem: &mut [u8], line: Option<Step>) -> PartStepped
    ensures { (start result.part mem.new ≡ after_line (start part mem.old) line) × (result.answer ≡ line_answer (start part mem.old) line) }
{
    match line {
        Some(step) => part.step(mem, step),
        None => PartStepped {
            part,
            answer: answers::unreadable(),
        },
    }
}

// Runs the lines of a text over a PCA9663 after a reset.
pub fn run_lines(text: &[u8], mem: &mut [u8]) -> Ran
    requires { length text.now < input_room }
    ensures { Runs text.now mem.old result mem.new }
{
    let mut part = Part::new(Device::Pca9663);
    let mut tally = Tally::new();
    let mut from = 0;
    // by places, as `runner::line_end` promises them
    while from < text.len() {
        let end = runner::line_end(text, from);
        let r = do_line(part, mem, script::read_line(&text[from..end]));
        part = r.part;
        tally.count(r.answer.number);
        from = end + 1;
    }
    Ran { part, tally }
}
