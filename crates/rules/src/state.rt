// The parts of a channel's record.

// Where a sequence on the wires stands. The transaction is kept in Address, Sending and Receiving only, as a byte, next to the phase: for speed (docs/SPEED.md).
#[derive(Clone, Copy, PartialEq, Eq, Default)]
pub enum Phase {
    #[default]
    Idle,
    Address(u8),
    Sending(u8),
    Receiving(u8),
    Stopping,
    Waiting,
}

// INTMSK, TRANSEL, TRANOFS, and CONTROL's TP and TE.
#[derive(Clone, Copy, PartialEq, Eq, Default)]
pub struct Regs {
    pub intmsk: u8,
    pub transel: u8,
    pub tranofs: u8,
    pub tp: bool,
    pub te: bool,
}

// CHSTATUS, a field a bit: 7 SD, 6 FLD, 5 WE, 4 RE, 3 DAE, 2 CLE, 1 SSE, 0 FE.
#[derive(Clone, Copy, PartialEq, Eq, Default)]
pub struct Flags {
    pub sd: bool,
    pub fld: bool,
    pub we: bool,
    pub re: bool,
    pub dae: bool,
    pub cle: bool,
    pub sse: bool,
    pub fe: bool,
}

// The pointers of SLATABLE, TRANCONFIG, DATA and BYTECOUNT.
#[derive(Clone, Copy, PartialEq, Eq, Default)]
pub struct Ptrs {
    pub sla: usize,
    pub conf: usize,
    pub buf: usize,
    pub count: usize,
}

// The phase, the number of frames ended since STA, the recorded STO, STOSEQ and FE, and a noted error end.
#[derive(Clone, Copy, PartialEq, Eq, Default)]
pub struct Walk {
    pub phase: Phase,
    pub ended: u8,
    pub sto: bool,
    pub seq: bool,
    pub fe: bool,
    pub error: bool,
}
