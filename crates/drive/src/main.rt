// Drives one channel, number 0, through lines 2 to 9 of the bench sheet by its public step. A printed line is one step: the sheet's line, the step as a
// script writes it, and the answer's number, value and action.
#![tactic(auto)]

use channel::Channel;
use rules::{Action, BUFFER, Event, Kind, Level, Straps, event_of};
use std::fmt;
use steps::Op;

// ---- what is printed

// A step of channel 0 as a script writes it.
#[derive(Clone, Copy)]
struct Typed(Op);

impl fmt::Display for Typed {
    fn fmt<W: fmt::Write>(&self, f: &mut fmt::Formatter<W>) -> fmt::Result {
        match self.0 {
            Op::Write(a, v) => write!(f, "W {a:02X} {v:02X}"),
            Op::Read(a) => write!(f, "R {a:02X}"),
            Op::Wire(e) => write!(f, "E 0 {}", Word(e)),
        }
    }
}

// An event as a script writes it.
#[derive(Clone, Copy)]
struct Word(Event);

impl fmt::Display for Word {
    fn fmt<W: fmt::Write>(&self, f: &mut fmt::Formatter<W>) -> fmt::Result {
        match self.0 {
            Event::Ninth(Level::Low) => f.write_str("ACK"),
            Event::Ninth(Level::High) => f.write_str("NACK"),
            Event::Byte(b) => write!(f, "BYTE {b:02X}"),
            Event::Tick => f.write_str("TICK"),
            Event::Stop => f.write_str("STOP"),
            Event::Sda => f.write_str("SDA"),
            Event::Scl => f.write_str("SCL"),
            Event::Ill => f.write_str("ILL"),
            Event::Sent => f.write_str("SENT"),
        }
    }
}

// An action's letters.
#[derive(Clone, Copy)]
struct Letters(Action);

impl fmt::Display for Letters {
    fn fmt<W: fmt::Write>(&self, f: &mut fmt::Formatter<W>) -> fmt::Result {
        let text = letters::spell(self.0);
        // byte by byte, as `Text` has them
        for &letter in &text.bytes[..text.len] {
            f.write_char(letter as char)?;
        }
        Ok(())
    }
}

// ---- the sheet

// A row of the sheet: an access, or an event by document 02's number and the byte that it carries.
#[derive(Clone, Copy)]
enum Row {
    Write(u8, u8),
    Read(u8),
    Wire(u8, u8),
}

impl Row {
    // Its step, if the number is an event's.
    fn op(self) -> Option<Op> {
        match self {
            Row::Write(a, v) => Some(Op::Write(a, v)),
            Row::Read(a) => Some(Op::Read(a)),
            Row::Wire(kind, value) => event_of(kind, value).map(|e| Op::Wire(e)),
        }
    }
}

// Rows for one channel after a reset, by the number of the sheet's line.
#[derive(Clone, Copy)]
struct Run {
    line: u8,
    rows: &'static [Row],
}

const ACK: Row = Row::Wire(9, 0);

const NACK: Row = Row::Wire(11, 0);

const TICK: Row = Row::Wire(12, 0);

const STOP: Row = Row::Wire(13, 0);

const SHEET: [Run; 9] = [
    // Count 0, STA: no action, CONTROL and CHSTATUS 00h.
    Run {
        line: 2,
        rows: &[
            Row::Write(0xC4, 0x00),
            Row::Write(0xC0, 0x40),
            Row::Read(0xC0),
            Row::Read(0xC1),
        ],
    },
    // One write, CONTROL 60h from Idle: starts, reads 40h; its STO is ignored, so the byte is sent.
    Run {
        line: 3,
        rows: &[
            Row::Write(0xC4, 0x01),
            Row::Write(0xC4, 0x01),
            Row::Write(0xC3, 0x40),
            Row::Write(0xC5, 0x7E),
            Row::Write(0xC0, 0x60),
            Row::Read(0xC0),
            ACK,
            ACK,
            STOP,
            Row::Read(0xC0),
            Row::Read(0xC1),
        ],
    },
    // Write to 40h, length 0: S40, ACK gives P.
    Run {
        line: 4,
        rows: &[
            Row::Write(0xC4, 0x01),
            Row::Write(0xC4, 0x00),
            Row::Write(0xC3, 0x40),
            Row::Write(0xC0, 0x40),
            ACK,
            Row::Read(0x00),
            Row::Read(0xC8),
        ],
    },
    // Read length 0, then write 42h length 0: first action S42, STATUS 0 is 02h.
    Run {
        line: 5,
        rows: &[
            Row::Write(0xC4, 0x02),
            Row::Write(0xC4, 0x00),
            Row::Write(0xC4, 0x00),
            Row::Write(0xC3, 0x41),
            Row::Write(0xC3, 0x42),
            Row::Write(0xC0, 0x40),
            Row::Read(0x00),
            Row::Read(0x01),
        ],
    },
    // Read 41h length 2: S41, C, A, NP.
    Run {
        line: 6,
        rows: &[
            Row::Write(0xC4, 0x01),
            Row::Write(0xC4, 0x02),
            Row::Write(0xC3, 0x41),
            Row::Write(0xC0, 0x40),
            ACK,
            Row::Wire(10, 0xA1),
            Row::Wire(10, 0xB2),
            Row::Read(0x00),
            Row::Read(0xC8),
            Row::Read(0xC5),
            Row::Read(0xC5),
        ],
    },
    // The same, STO before the ACK: C, NP, BYTECOUNT 1, STATUS 01h, CHSTATUS 80h.
    Run {
        line: 7,
        rows: &[
            Row::Write(0xC4, 0x01),
            Row::Write(0xC4, 0x02),
            Row::Write(0xC3, 0x41),
            Row::Write(0xC0, 0x40),
            Row::Write(0xC0, 0x20),
            Row::Read(0xC0),
            ACK,
            Row::Wire(10, 0xA1),
            STOP,
            Row::Read(0xC8),
            Row::Read(0x00),
            Row::Read(0xC1),
            Row::Read(0xC0),
        ],
    },
    // FRAMECNT 2, CHSTATUS unread: C0h at the end.
    Run {
        line: 8,
        rows: &[
            Row::Write(0xC9, 0x02),
            Row::Write(0xC4, 0x01),
            Row::Write(0xC4, 0x00),
            Row::Write(0xC3, 0x40),
            Row::Write(0xC0, 0x40),
            ACK,
            STOP,
            Row::Read(0xC0),
            TICK,
            ACK,
            STOP,
            Row::Read(0xC0),
            Row::Read(0xC1),
            Row::Read(0xC1),
        ],
    },
    // Writes to 40h and 42h, NACK on the first: P, CHSTATUS 20h.
    Run {
        line: 9,
        rows: &[
            Row::Write(0xC4, 0x02),
            Row::Write(0xC4, 0x01),
            Row::Write(0xC4, 0x01),
            Row::Write(0xC3, 0x40),
            Row::Write(0xC3, 0x42),
            Row::Write(0xC0, 0x40),
            NACK,
            STOP,
            Row::Read(0x00),
            Row::Read(0x01),
            Row::Read(0xC0),
            Row::Read(0xC1),
        ],
    },
    // With INTMSK 20h: R42.
    Run {
        line: 9,
        rows: &[
            Row::Write(0xC2, 0x20),
            Row::Write(0xC4, 0x02),
            Row::Write(0xC4, 0x01),
            Row::Write(0xC4, 0x01),
            Row::Write(0xC3, 0x40),
            Row::Write(0xC3, 0x42),
            Row::Write(0xC5, 0x7E),
            Row::Write(0xC5, 0x7F),
            Row::Write(0xC0, 0x40),
            NACK,
            ACK,
            ACK,
            STOP,
            Row::Read(0x00),
            Row::Read(0x01),
            Row::Read(0xC1),
        ],
    },
];

fn main(rt: HostRuntime) {
    for run in &SHEET {
        let mut mem = [0u8; BUFFER];
        let mut channel = Channel::new(Straps { kind: Kind::Fm });
        for row in run.rows {
            let Some(op) = row.op() else {
                let _ = println!(rt; "a row that is no event's");
                continue;
            };
            let stepped = channel.step(0, &mut mem, op);
            channel = stepped.channel;
            let answer = stepped.answer;
            // A write that fails is left: what has come out is looked at, and nothing else here could say it.
            let _ = println!(rt;
                "{}: {} -> {} {:02X} {}",
                run.line,
                Typed(op),
                answer.number,
                answer.value,
                Letters(answer.action),
            );
        }
    }
}
