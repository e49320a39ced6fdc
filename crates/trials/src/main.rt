// Calls of a fixed binary form on one part and one memory: lines of a script, and loads and saves of sequence files, which no script has. A call is 8 bytes of
// header and then its buffer. A printed line is one call: its number, the answer's number and value, INT, and the sums of the buffer, the state and the memory
// after it. The input ends where no whole call is left.
#![tactic(auto)]

mod calls;
mod poke;
mod sums;

use calls::{BYTES, Call, NoCall};
use part::{Part, PartStepped};
use rules::{DONE, Device};
use std::io::Read;
use sums::Sum;

// The most bytes that a buffer can have.
const ROOM: usize = 4608;

fn sum_of(bytes: &[u8]) -> u64 {
    let mut sum = Sum::new();
    sum.bytes(bytes);
    sum.value()
}

// The actions of an answer, and the part.
fn sum_of_state(r: &PartStepped) -> u64 {
    let mut sum = Sum::new();
    sum.actions(r.answer.actions);
    sum.part(&r.part);
    sum.value()
}

fn report(out: &impl Print, number: u64, r: &PartStepped, buf: &[u8], mem: &[u8; BYTES]) {
    // A write that fails is left: what has come out is looked at, and nothing else here could say it.
    let _ = println!(out;
        "{number} {} {:02X} {} {} {} {}",
        r.answer.number,
        r.answer.value,
        r.part.interrupt() as u8,
        sum_of(buf),
        sum_of_state(r),
        sum_of(mem),
    );
}

// The next call and its buffer, if a whole one is left and there is room for its buffer.
fn read_call<'a>(
    input: &mut impl Read,
    buf: &'a mut [u8; ROOM],
) -> Option<(Result<Call, NoCall>, &'a mut [u8])> {
    let mut header = [0; 8];
    input.read_exact(&mut header).ok()?;
    let [what, channel, a, b, c, d, low, high] = header;
    let buf = buf.get_mut(..u16::from_le_bytes([low, high]) as usize)?;
    input.read_exact(buf).ok()?;
    Some((Call::try_from([what, channel, a, b, c, d]), buf))
}

// A proved loop has to end, and nothing says that the input does: the number of calls has a largest value, which no run reaches.
fn main(rt: HostRuntime) {
    let mut input = rt.stdin();
    let mut room = [0; ROOM];
    let mut mem = [0; BYTES];
    let mut part = Part::new(Device::Pca9663);
    for number in 1..=u64::MAX {
        let Some((call, buf)) = read_call(&mut input, &mut room) else {
            return;
        };
        let r = match call {
            Ok(call) => call.perform(part, buf, &mut mem),
            Err(_) => part.answer(DONE),
        };
        report(&rt, number, &r, buf, &mem);
        part = r.part;
    }
}
