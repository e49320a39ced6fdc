// The lines of a block: where each ends, and what is kept of one that the block does not end.
ghost use Rattle.std.specs.Prelude.{◌≡◌, ◌-◌, ◌≤◌, length, take};
ghost use Rattle.std.proofs.lemmas.List.Edits.{sets};
ghost use Rattle.script.specs.Grammar.{line_room};
ghost use Rattle.runner.specs.Lines.{no_line, with_byte, lengthened, kept_of, line_end};

use script::LINE_ROOM;

// The line that is being read: as many of its first bytes as tell how it is read, since a line of LINE_ROOM bytes or more can't be. An array and a
// length: `no_line` and `with_byte` are definitions over both, and `Seat` of bench is Copy, which an ArrayVec is not.
#[derive(Clone, Copy)]
pub struct Start {
    pub bytes: [u8; LINE_ROOM],
    pub len: usize,
}

#[tactic(auto, unfolding(script::specs::Grammar::line_room))]
pub fn no_line() -> Start
    ensures { result ≡ no_line }
{
    Start {
        bytes: [0; LINE_ROOM],
        len: 0,
    }
}

impl Start {
    // One more byte of the line; past the first LINE_ROOM it makes no difference.
    #[tactic(auto, using(laws::specs::Cases::cases), unfolding(crate::specs::Lines::with_byte, script::specs::Grammar::line_room))]
    fn push(&mut self, b: u8)
        ensures { self.new ≡ with_byte self.old b }
    {
        if self.len < LINE_ROOM {
            self.bytes[self.len] = b;
            self.len += 1;
        }
    }
}

// The line with more of its bytes.
pub fn lengthen(mut line: Start, more: &[u8]) -> Start
    ensures { result ≡ lengthened line more.now }
{
    for &b in more {
        line.push(b);
    }
    line
}

// Of a length alone, as `put_start` takes bytes and number: `begun_line_lost` is refused by the call with another length.
pub fn kept(len: usize) -> usize
    ensures { (result ≡ kept_of len) × (result ≤ line_room) }
{
    len.min(LINE_ROOM)
}

// Puts the n bytes that are kept of a line right before place LINE_ROOM of the block, where a read goes on, and gives their place: so the line stands there
// in one piece.
#[tactic(auto, unfolding(script::specs::Grammar::line_room))]
pub fn put_start(bytes: [u8; LINE_ROOM], n: usize, block: &mut [u8]) -> usize
    requires { (n ≤ line_room) × (line_room ≤ length block.old) }
    ensures { (result ≡ line_room - n) × (block.new ≡ sets block.old result (take n bytes)) × (length (take n bytes) ≡ n) }
{
    let at = LINE_ROOM - n;
    answers::put(block, at, &bytes[..n]);
    at
}

// The place of the first LF from a place on, or the block's end: a place in both cases, as definition `line_end`.
pub fn line_end(block: &[u8], from: usize) -> usize
    requires { from ≤ length block.now }
    ensures { result ≡ line_end block.now from }
{
    match block[from..].iter().position(|&b| b == b'\n') {
        Some(n) => from + n,
        None => block.len(),
    }
}
