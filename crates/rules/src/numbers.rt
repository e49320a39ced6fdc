// Document 01's sizes, STATUS values and answer numbers, each by its name.
ghost use Rattle.std.specs.Prelude.{◌≡◌};
ghost use Rattle.rules.specs.Numbers.{refusal_number, number_of};

// All buffers are one lent memory; each channel works on its own bytes of it.
pub const MEMORY: usize = 13056;

pub const BUFFER: usize = 4352;

// STATUS values.
pub const NOT_BEGUN: u8 = 0x00;

pub const UNDERWAY: u8 = 0x01;

pub const DONE_STATUS: u8 = 0x02;

pub const ADDRESS_REFUSED: u8 = 0x04;

pub const DATA_REFUSED: u8 = 0x08;

// Numbers that an answer carries, as far as code names them: `Refusal` has them all.
pub const DONE: u8 = 0;

pub const NOWHERE: u8 = 1;

pub const LOCKED: u8 = 3;

pub const PAST_BUFFER: u8 = 5;

pub const UNREADABLE: u8 = 8;

pub const OUT_OF_RANGE: u8 = 9;

pub const NOT_A_FILE: u8 = 10;

pub const NO_ROOM: u8 = 11;

// Why a step is refused, in the order of the numbers.
#[derive(Clone, Copy, PartialEq, Eq)]
pub enum Refusal {
    Nowhere = 1,
    ReadOnly,
    Locked,
    PastTable,
    PastBuffer,
    ManyTransactions,
    NotAwaited,
    Unreadable,
    OutOfRange,
    NotAFile,
    NoRoom,
}

impl Refusal {
    // Its number, as an answer carries it.
    #[tactic(auto, using(laws::specs::Cases::cases))]
    pub fn number(self) -> u8
        ensures { result ≡ refusal_number self }
    {
        self as u8
    }
}

// What an answer carries: 0 where nothing is refused.
pub fn number_of(outcome: Result<(), Refusal>) -> u8
    ensures { result ≡ number_of outcome }
{
    match outcome {
        Ok(()) => DONE,
        Err(refusal) => refusal.number(),
    }
}
