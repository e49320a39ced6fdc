// The head of a channel, and what a step answers.
ghost use Rattle.std.specs.Prelude.{◌≡◌};
ghost use Rattle.rules.specs.Numbers.{done, refusal_number};
ghost use Rattle.head.specs.State.{settings_of, fresh_head, numbered, valued, acting, answer_by};

use rules::{Action, DONE, Flags, Kind, Ptrs, Refusal, Regs, Straps, Walk};

// FRAMECNT, REFRATE, SCLL, SCLH, MODE and TIMEOUT; of a UFm channel SCLPER and SDADLY stand in place of SCLL and SCLH, and TIMEOUT is reserved.
#[derive(Clone, Copy, PartialEq, Eq)]
pub struct Settings {
    pub framecnt: u8,
    pub refrate: u8,
    pub scll: u8,
    pub sclh: u8,
    pub mode: u8,
    pub timeout: u8,
}

// A channel without its tables: its registers and settings, flags, pointers, the walk of its sequence, whether A5h was written to PRESET, and what the hardware
// reset chose, in the order that is fastest (docs/SPEED.md).
#[derive(Clone, Copy, PartialEq, Eq)]
pub struct Head {
    pub regs: Regs,
    pub key: bool,
    pub settings: Settings,
    pub ptrs: Ptrs,
    pub flags: Flags,
    pub straps: Straps,
    pub walk: Walk,
}

// The number of document 01, the value of a read, and the action. A number and no `Result`: document 01 has it as a byte of the answer.
#[derive(Clone, Copy, PartialEq, Eq)]
pub struct Answer {
    pub number: u8,
    pub value: u8,
    pub action: Action,
}

impl Answer {
    // A number and nothing else.
    pub fn numbered(number: u8) -> Self
        ensures { result ≡ numbered number }
    {
        Answer {
            number,
            value: 0,
            action: Action::Nothing,
        }
    }

    pub fn done() -> Self
        ensures { result ≡ numbered done }
    {
        Answer::numbered(DONE)
    }

    pub fn refused(e: Refusal) -> Self
        ensures { result ≡ numbered (refusal_number e) }
    {
        Answer::numbered(e.number())
    }

    // What answers, or the refusal.
    pub fn by(outcome: Result<Answer, Refusal>) -> Self
        ensures { result ≡ answer_by outcome }
    {
        outcome.unwrap_or_else(Answer::refused)
    }

    // The value of a read.
    pub fn reply(value: u8) -> Self
        ensures { result ≡ valued value }
    {
        Answer {
            value,
            ..Answer::done()
        }
    }

    pub fn act(action: Action) -> Self
        ensures { result ≡ acting action }
    {
        Answer {
            action,
            ..Answer::done()
        }
    }
}

// The settings as a reset leaves them.
fn settings_of(k: Kind) -> Settings
    ensures { result ≡ settings_of k }
{
    match k {
        Kind::Fm => Settings {
            framecnt: 0x01,
            refrate: 0x00,
            scll: 0x5E,
            sclh: 0x3F,
            mode: 0x92,
            timeout: 0x00,
        },
        Kind::Ufm => Settings {
            framecnt: 0x01,
            refrate: 0x00,
            scll: 0x20,
            sclh: 0x08,
            mode: 0x83,
            timeout: 0x00,
        },
    }
}

impl Head {
    // The head as a reset leaves it.
    pub fn new(straps: Straps) -> Self
        ensures { result ≡ fresh_head straps }
    {
        Head {
            regs: Regs::default(),
            key: false,
            settings: settings_of(straps.kind),
            ptrs: Ptrs::default(),
            flags: sequence::no_flags(),
            straps,
            walk: sequence::idle_walk(),
        }
    }
}
