// A case: a record in range and memories of the right lengths, and what a row alters of them; the calls, and what each leaves.
ghost use Rattle.std.specs.Prelude.{◌<◌};

use channel::Channel;
use head::Head;
use part::Part;
use rules::{BUFFER, Device, Kind, MEMORY, Phase, Straps};
use std::fmt;
use steps::{Op, Step};

// The bytes of which the first ones are lent, so that more than a part has can be.
const LENT: [u8; 13058] = [0x3C; 13058];

// An answer's number, and whether the whole record and every byte of the memory were left.
#[derive(Clone, Copy)]
pub(crate) struct Outcome {
    number: u8,
    left: bool,
}

impl fmt::Display for Outcome {
    fn fmt<W: fmt::Write>(&self, f: &mut fmt::Formatter<W>) -> fmt::Result {
        let word = if self.left { "left" } else { "changed" };
        write!(f, "{} {word}", self.number)
    }
}

#[derive(Clone, Copy)]
pub(crate) struct Case {
    head: Head,
    // the tables: the address byte of every transaction, how many there are, the length of each and that of the eighteenth, STATUS, an entry and its BYTECOUNT
    slatable: u8,
    count: u8,
    lengths: u8,
    length18: u8,
    status: u8,
    entry: usize,
    bytes: u8,
    // what the part keeps, and the device that its other channels are of
    mask: u8,
    be: bool,
    key: bool,
    device: Device,
    // the number by which the single channel is called; the bytes that are lent to it, and to the part
    called: u8,
    own_lent: usize,
    all_lent: usize,
}

// ---- an alteration: a name, a space, and a value in decimal

fn flag(value: u16) -> Option<bool> {
    match value {
        0 => Some(false),
        1 => Some(true),
        _ => None,
    }
}

fn byte(value: u16) -> Option<u8> {
    u8::try_from(value).ok()
}

// A value up to the largest one that its name takes.
fn up_to(most: u16, value: u16) -> Option<usize> {
    (value <= most).then_some(usize::from(value))
}

// The digits of a value, and nothing else: `parse` takes a sign too.
fn value_of(digits: &str) -> Option<u16> {
    if digits.starts_with('+') {
        return None;
    }
    digits.parse::<u16>().ok()
}

// The phases, with a transaction, which only the middle three keep.
fn phase_of(name: &str, transaction: u8) -> Option<Phase> {
    match name {
        "IDLE" => Some(Phase::Idle),
        "ADDRESS" => Some(Phase::Address(transaction)),
        "SENDING" => Some(Phase::Sending(transaction)),
        "RECEIVING" => Some(Phase::Receiving(transaction)),
        "STOPPING" => Some(Phase::Stopping),
        "WAITING" => Some(Phase::Waiting),
        _ => None,
    }
}

impl Case {
    pub(crate) fn new() -> Self {
        Case {
            head: Head::new(Straps { kind: Kind::Fm }),
            slatable: 0x40,
            count: 3,
            lengths: 2,
            length18: 2,
            status: 0,
            entry: 0,
            bytes: 0,
            mask: 0,
            be: false,
            key: false,
            device: Device::Pca9663,
            called: 0,
            own_lent: BUFFER,
            all_lent: MEMORY,
        }
    }

    // One more alteration, if it can be read.
    pub(crate) fn alter(&mut self, item: &str) -> Option<()> {
        let (name, digits) = item.rsplit_once(' ')?;
        // a name and the spaces behind it take ten bytes at most
        if 9 < name.len() {
            return None;
        }
        let value = value_of(digits)?;
        match name.trim_end_matches(' ') {
            "SLATABLE" => self.slatable = byte(value)?,
            "COUNT" => self.count = byte(value)?,
            "LENGTHS" => self.lengths = byte(value)?,
            "LENGTH18" => self.length18 = byte(value)?,
            "AT ENTRY" => self.entry = up_to(63, value)?,
            "BYTES" => self.bytes = byte(value)?,
            "ENDED" => self.head.walk.ended = byte(value)?,
            "FRAMECNT" => self.head.settings.framecnt = byte(value)?,
            "TE" => self.head.regs.te = flag(value)?,
            "STO" => self.head.walk.sto = flag(value)?,
            "STOSEQ" => self.head.walk.seq = flag(value)?,
            "FE" => self.head.walk.fe = flag(value)?,
            "ERROR" => self.head.walk.error = flag(value)?,
            "INTMSK" => self.head.regs.intmsk = byte(value)?,
            "TRANSEL" => self.head.regs.transel = byte(value)?,
            "SLA PTR" => self.head.ptrs.sla = value as usize,
            "CONF PTR" => self.head.ptrs.conf = value as usize,
            "DATA PTR" => self.head.ptrs.buf = value as usize,
            "BYTE PTR" => self.head.ptrs.count = value as usize,
            "STATUS" => self.status = byte(value)?,
            "KEY" => self.head.key = flag(value)?,
            "SD" => self.head.flags.sd = flag(value)?,
            "WE" => self.head.flags.we = flag(value)?,
            "RE" => self.head.flags.re = flag(value)?,
            "UFM" => self.head.straps.kind = if flag(value)? { Kind::Ufm } else { Kind::Fm },
            "CTRLMASK" => self.mask = byte(value)?,
            "BE" => self.be = flag(value)?,
            "PART KEY" => self.key = flag(value)?,
            "PCU9669" => self.device = if flag(value)? {
                Device::Pcu9669
            } else {
                Device::Pca9663
            },
            "CALLED" => self.called = byte(value)?,
            "OWN LENT" => self.own_lent = up_to(13057, value)?,
            "ALL LENT" => self.all_lent = up_to(13057, value)?,
            phase => self.head.walk.phase = phase_of(phase, byte(value)?)?,
        }
        Some(())
    }

    // ---- the record, as a channel and in a part

    fn channel(&self) -> Channel {
        let mut tranconfig = [self.lengths; 65];
        tranconfig[0] = self.count;
        tranconfig[18] = self.length18;
        let mut bytecount = [0; 64];
        bytecount[self.entry % 64] = self.bytes;
        Channel {
            slatable: [self.slatable; 64],
            head: self.head,
            status: [self.status; 64],
            bytecount,
            tranconfig,
        }
    }

    // The channel's number is asked to be one of the part's: an index, and no type of its own for the two calls that take it.
    pub(crate) fn part(&self, i: usize) -> Part
        requires { i < 3 }
    {
        let mut part = Part::new(self.device);
        part.channels[i] = self.channel();
        part.be = self.be;
        part.mask = self.mask;
        part.key = self.key;
        part
    }

    // ---- the calls (the remainders change nothing, since `alter` keeps what is lent below them: they spare an invariant)

    pub(crate) fn step_channel(&self, op: Op) -> Outcome {
        let channel = self.channel();
        let mut mem = LENT;
        let r = channel.step(self.called, &mut mem[..self.own_lent % LENT.len()], op);
        Outcome {
            number: r.answer.number,
            left: r.channel == channel && mem == LENT,
        }
    }

    pub(crate) fn step_part(&self, i: usize, step: Step) -> Outcome
        requires { i < 3 }
    {
        let part = self.part(i);
        let mut mem = LENT;
        let r = part.step(&mut mem[..self.all_lent % LENT.len()], step);
        Outcome {
            number: r.answer.number,
            left: r.part == part && mem == LENT,
        }
    }
}
