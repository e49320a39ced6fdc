// The calls, each on the part and the memory.
ghost use Rattle.std.specs.Prelude.{◌<◌, ◌+◌, ◌*◌, ◌≤◌, length};

use crate::poke::{Field, NoField};
use channel::Stepped;
use part::{Part, PartStepped};
use rules::{BUFFER, DONE, Device, MEMORY, UNREADABLE};
use steps::PartAnswer;

// The memory: the part's bytes and two more, so that more than it has can be lent.
pub(crate) const BYTES: usize = 13058;

// What a call does. `lent` is how many bytes of the memory, or of a single channel's part of it, are lent at most.
#[derive(Clone, Copy)]
pub(crate) enum Call {
    Line,
    New(Device),
    Poke {
        channel: u8,
        field: Field,
        value: u16,
    },
    Load {
        channel: u8,
        lent: usize,
    },
    Save {
        channel: u8,
        lent: usize,
    },
    LoadAlone {
        channel: u8,
        lent: usize,
    },
    SaveAlone {
        channel: u8,
        lent: usize,
    },
}

// A number that is no call's, or no field's.
#[derive(Clone, Copy)]
pub(crate) struct NoCall;

impl From<NoField> for NoCall {
    fn from(_: NoField) -> NoCall {
        NoCall
    }
}

impl TryFrom<[u8; 6]> for Call {
    type Error = NoCall;

    // What it is, its channel, the bytes that are lent or the field of a poke, and the value of a poke.
    fn try_from(
        [what, channel, low, high, value_low, value_high]: [u8; 6],
    ) -> Result<Self, NoCall> {
        let number = u16::from_le_bytes([low, high]);
        let value = u16::from_le_bytes([value_low, value_high]);
        let lent = number as usize;
        Ok(match what {
            0 => Call::Line,
            1 => Call::New(if channel == 1 {
                Device::Pcu9669
            } else {
                Device::Pca9663
            }),
            2 => Call::Poke {
                channel,
                field: Field::try_from(number)?,
                value,
            },
            3 => Call::Load { channel, lent },
            4 => Call::Save { channel, lent },
            5 => Call::LoadAlone { channel, lent },
            6 => Call::SaveAlone { channel, lent },
            _ => return Err(NoCall),
        })
    }
}

// By value, and over the part's own bytes: the part that a call finds may be any, so no `serve`.
fn run_line(part: Part, mem: &mut [u8], text: &[u8]) -> PartStepped
    requires { 13056 ≤ length mem.old }
{
    match script::read_line(text) {
        Some(step) => part.step(&mut mem[..MEMORY], step),
        None => part.answer(UNREADABLE),
    }
}

// ---- calls of a single channel, and pokes

fn place(channel: u8) -> usize
    ensures { result < 3 }
{
    channel as usize % 3
}

// The part with the record that a channel's call handed back, and the answer as `Part::one` puts it, which also sets BE.
fn put_back(mut part: Part, i: usize, r: Stepped) -> PartStepped
    requires { i < 3 }
{
    part.channels[i] = r.channel;
    let answer = r.answer;
    PartStepped {
        part,
        answer: PartAnswer {
            number: answer.number,
            value: answer.value,
            actions: steps::act_at(i as u8, answer.action),
        },
    }
}

// ---- any call

impl Call {
    pub(crate) fn perform(
        self,
        mut part: Part,
        buf: &mut [u8],
        mem: &mut [u8; BYTES],
    ) -> PartStepped {
        match self {
            Call::Line => run_line(part, mem, buf),
            // the part as a reset leaves it, and the whole memory zero
            Call::New(device) => {
                mem.fill(0);
                Part::new(device).answer(DONE)
            }
            Call::Poke {
                channel,
                field,
                value,
            } => {
                field.poke(&mut part, place(channel), value);
                part.answer(DONE)
            }
            Call::Load { channel, lent } => {
                files::load_into(part, &mut mem[..lent.min(BYTES)], channel, buf)
            }
            Call::Save { channel, lent } => {
                files::save_from(part, &mem[..lent.min(BYTES)], channel, buf)
            }
            Call::LoadAlone { channel, lent } => {
                let i = place(channel);
                let own = &mut mem[BUFFER * i..][..lent.min(BUFFER + 2)];
                put_back(part, i, files::load(part.channels[i], own, buf))
            }
            Call::SaveAlone { channel, lent } => {
                let i = place(channel);
                let own = &mem[BUFFER * i..][..lent.min(BUFFER + 2)];
                put_back(part, i, files::save(part.channels[i], own, buf))
            }
        }
    }
}
