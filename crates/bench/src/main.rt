// The script program: steps on standard input, a line each, and a line of answer for each on standard output, over one part.
#![tactic(auto)]

ghost use Rattle.std.specs.Prelude.{◌≡◌, ◌+◌, ◌-◌, ◌*◌, ◌≤◌, length, take, drop};
ghost use Rattle.part.specs.State.{wiped};
ghost use Rattle.script.specs.Grammar.{line_room};
ghost use Rattle.answers.specs.Answer.{answer_room};
ghost use Rattle.bench.specs.Talk.{block_size, sitting_of, bare_of, silenced, Sized, Ready, Heard, Closed, Written, going_on, Begun, Turned};

use answers::ANSWER_ROOM;
use part::Part;
use rules::{Device, MEMORY};
use runner::{Course, Start};
use script::LINE_ROOM;
use std::fmt;
use std::io::{Read, Write};

// The bytes of the block that is read into (`block_size`).
const BLOCK: usize = 8192;

// Those of the output: room for an answer to each byte of the block.
const OUTPUT: usize = ANSWER_ROOM * BLOCK;

// Where the program stands between two reads: the part, the number of the last step, the line that has begun, and how many bytes of text are in the output.
#[derive(Clone, Copy)]
struct Seat {
    part: Part,
    step: u64,
    line: Start,
    at: usize,
}

// What the program lends: the block that is read into, the part's memory, and the output.
#[derive(Drop)]
struct Buffers {
    block: [u8; BLOCK],
    mem: [u8; MEMORY],
    out: [u8; OUTPUT],
}

impl Buffers {
    #[tactic(auto, unfolding(part::specs::State::wiped))]
    fn new() -> Self
        ensures sizes { (length result.block ≡ block_size) × (length result.out ≡ answer_room * block_size) }
        ensures zero { result.mem ≡ wiped }
    {
        Buffers {
            block: [0; BLOCK],
            mem: [0; MEMORY],
            out: [0; OUTPUT],
        }
    }
}

// How the program goes on: another read, or it stops since the input has ended.
#[derive(Clone, Copy)]
enum Next {
    On,
    Ended,
}

// What stops it before.
#[derive(Clone, Copy)]
enum Failed {
    Unread,
    Unwritten,
}

impl fmt::Display for Failed {
    fn fmt<W: fmt::Write>(&self, f: &mut fmt::Formatter<W>) -> fmt::Result {
        f.write_str(match self {
            Failed::Unread => "standard input could not be read",
            Failed::Unwritten => "standard output could not be written",
        })
    }
}

// What a turn leaves: where the program stands, how many bytes were read, and how it goes on.
#[derive(Clone, Copy)]
struct Bench {
    seat: Seat,
    came: usize,
    how: Result<Next, Failed>,
}

// ---- the bytes of a block

// Answers each line that ends in a part of the block and keeps the start of the line that doesn't. Block, memory and output one by one: the block is lent to be
// read, the others to be written.
fn answer_block(
    s: Seat,
    block: &[u8],
    from: usize,
    till: usize,
    mem: &mut [u8],
    out: &mut [u8],
) -> Seat
    requires { Ready s mem.old × (from ≤ till) × (till ≤ length block.now) × (answer_room * length block.now ≤ length out.old) }
    ensures { Heard (bare_of s mem.old) (take (till - from) (drop from block.now)) result mem.new out.new }
{
    let lines = &block[from..till];
    let course = Course {
        part: s.part,
        step: s.step,
        from: 0,
        at: 0,
    };
    let r = runner::answer_lines(course, lines, mem, out);
    Seat {
        part: r.part,
        step: r.step,
        line: runner::lengthen(runner::no_line(), &lines[r.from..]),
        at: r.at,
    }
}

// Answers the line that was begun and n bytes more, which the block has from place LINE_ROOM on.
#[tactic(auto, unfolding(script::specs::Grammar::line_room))]
fn answer_from(s: Seat, b: &mut Buffers, n: usize) -> Seat
    requires { Ready s b.old.mem × (line_room + n ≤ length b.old.block) }
    ensures heard { Heard (sitting_of s b.old.mem) (take n (drop line_room b.old.block)) result b.new.mem b.new.out }
    ensures block_unchanged { (drop line_room b.new.block ≡ drop line_room b.old.block) × Sized s.line }
{
    let at = runner::put_start(s.line.bytes, runner::kept(s.line.len), &mut b.block);
    answer_block(s, &b.block, at, LINE_ROOM + n, &mut b.mem, &mut b.out)
}

// No text.
fn silent(s: Seat) -> Seat
    ensures { result ≡ silenced s }
{
    Seat { at: 0, ..s }
}

// The input has ended: what follows the last LF is a line if it has a byte.
#[tactic(auto, unfolding(script::specs::Grammar::line_room))]
fn finish(s: Seat, b: &mut Buffers) -> Seat
    requires { Ready s b.old.mem }
    ensures { Closed (sitting_of s b.old.mem) result b.new.mem b.new.out }
{
    // a name, by which `Closed`'s two cases are told apart in the proof and `last_line_lost` is refused
    let begun = 0 < s.line.len;
    if begun {
        answers::put(&mut b.block, LINE_ROOM, b"\n");
        answer_from(s, b, 1)
    } else {
        silent(s)
    }
}

// ---- reads and writes

// Writes the first n bytes, and goes on as meant unless that failed. Buffer and number: the bound of a part does not prove where it is called.
fn written<W: Write>(to: &mut W, out: &[u8], n: usize, next: Next) -> Result<Next, Failed>
    requires { n ≤ length out.now }
    ensures { Written next result }
{
    to.write_all(&out[..n]).map_err(|_| Failed::Unwritten)?;
    Ok(next)
}

// One read, of what is there, and the answers to its lines.
#[tactic(auto, unfolding(script::specs::Grammar::line_room))]
fn turn<R: Read, W: Write>(from: &mut R, to: &mut W, s: Seat, b: &mut Buffers) -> Bench
    requires { Ready s b.old.mem }
    ensures turned { Turned s b.old.mem result b.new.mem (take result.came (drop line_room b.new.block)) (take result.seat.at b.new.out) }
    ensures ready { Ready result.seat b.new.mem }
{
    let Ok(n) = from.read(&mut b.block[LINE_ROOM..]) else {
        return Bench {
            seat: silent(s),
            came: 0,
            how: Err(Failed::Unread),
        };
    };
    if n == 0 {
        let last = finish(s, b);
        return Bench {
            seat: last,
            came: 0,
            how: written(to, &b.out, last.at, Next::Ended),
        };
    }
    let next = answer_from(s, b, n);
    Bench {
        seat: next,
        came: n,
        how: written(to, &b.out, next.at, Next::On),
    }
}

// The program begins: the PCA9663 after a reset, and the header is written.
fn begin<W: Write>(to: &mut W, out: &mut [u8]) -> Bench
    requires { answer_room ≤ length out.old }
    ensures { Begun result wiped (take result.seat.at out.new) }
{
    let n = answers::write_header(out, 0);
    Bench {
        seat: Seat {
            part: Part::new(Device::Pca9663),
            step: 0,
            line: runner::no_line(),
            at: n,
        },
        came: 0,
        how: written(to, out, n, Next::On),
    }
}

// Another turn follows exactly where the last one has left it to.
fn goes_on(how: Result<Next, Failed>) -> bool
    ensures { result ≡ going_on how }
{
    matches!(how, Ok(Next::On))
}

// A proved loop has to end, and nothing says that the input does: it has a number of turns that no run uses up.
fn main(rt: HostRuntime) {
    let mut stdin = rt.stdin();
    let mut stdout = rt.stdout();
    let mut buffers = Buffers::new();
    let mut b = begin(&mut stdout, &mut buffers.out);
    // the last step before the turn: its answer is written
    let mut safe = 0;
    for _ in 0..u64::MAX {
        if !goes_on(b.how) {
            break;
        }
        safe = b.seat.step;
        b = turn(&mut stdin, &mut stdout, b.seat, &mut buffers);
    }
    // what is said on standard error is a failure to ./bench; the answers up to the step are written
    if let Err(e) = b.how {
        let _ = eprintln!(rt; "bench: {e} after step {safe}");
    }
}
