// Records from outside: in range, and out of it by one clause of document 01's rule alone. A row of standard input alters a record in range and ends with a
// step of a channel, as a script writes it. The record is handed to the single channel's step; as channel 0 of a part, to the part's; as channel 1, to a
// trigger edge; as channel 2, to a hardware reset. A printed line is one row, and for each call the answer's number and whether the whole record and every
// byte of the memory were left, and whether the part pulls INT with the record as its channel 1; or that the row can't be read. Lines that begin with # are passed over.
#![tactic(auto)]

mod case;

ghost use Rattle.std.specs.Prelude.{◌≤◌, length};

use case::Case;
use rules::{Device, Edge};
use std::io::Read;
use std::str;
use steps::{Op, Step};

// The most bytes of rows.
const ROOM: usize = 65536;

// A step of a channel, as the single one takes it.
fn op_of(step: Step) -> Option<Op> {
    match step {
        Step::Write(a, v) => Some(Op::Write(a, v)),
        Step::Read(a) => Some(Op::Read(a)),
        Step::Wire(_, e) => Some(Op::Wire(e)),
        Step::Trigger(_) | Step::Reset(_) => None,
    }
}

// Each comma ends an alteration, and a space may follow it; behind the last one is the step.
fn read_row(row: &[u8]) -> Option<(Case, Op, Step)> {
    let mut case = Case::new();
    let mut rest = str::from_utf8(row).ok()?;
    while let Some((item, behind)) = rest.split_once(',') {
        case.alter(item)?;
        rest = behind.strip_prefix(' ').unwrap_or(behind);
    }
    let step = script::read_line(rest.as_bytes())?;
    Some((case, op_of(step)?, step))
}

fn answer(out: &impl Print, row: &[u8]) {
    // A write that fails is left: what has come out is looked at, and nothing else here could say it.
    let _ = out.write_all(row);
    let _ = match read_row(row) {
        Some((case, op, step)) => println!(out;
            ": channel {}; part {}; trigger {}; reset {}; INT {}",
            case.step_channel(op),
            case.step_part(0, step),
            case.step_part(1, Step::Trigger(Edge::Rising)),
            case.step_part(2, Step::Reset(Device::Pca9663)),
            if case.part(1).interrupt() {
                "pulled"
            } else {
                "free"
            },
        ),
        None => println!(out; ": can't be read"),
    };
}

// Reads until the buffer is full, the input ends or a read fails, and gives how many bytes it put at the buffer's start. By hand, into the buffer itself:
// `io::copy` reads once more when the buffer is full, takes bytes that have no room, and keeps 8,192 of a message at most.
fn read_full(input: &mut impl Read, buf: &mut [u8]) -> usize
    ensures { result ≤ length buf.new }
{
    let mut done = 0;
    while done < buf.len() {
        let Ok(n) = input.read(&mut buf[done..]) else {
            break;
        };
        if n == 0 {
            break;
        }
        done += n;
    }
    done
}

fn main(rt: HostRuntime) {
    let mut text = [0; ROOM];
    let n = read_full(&mut rt.stdin(), &mut text);
    for line in text[..n].split_inclusive(|&b| b == b'\n') {
        let row = line.strip_suffix(b"\n").unwrap_or(line);
        if !row.starts_with(b"#") {
            answer(&rt, row);
        }
    }
    if n == ROOM {
        let _ = println!(rt; "there is no room for rows behind these");
    }
}
