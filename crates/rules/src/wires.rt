// Document 01, 'A sequence on the wires': what a channel does on its wires, what they did, and an edge of the trigger.

// What a channel does on the wires, in document 01's letters.
#[derive(Clone, Copy, PartialEq, Eq)]
pub enum Action {
    Nothing,
    S(u8),
    R(u8),
    D(u8),
    C,
    A,
    Np,
    Nr(u8),
    P,
}

// What was seen of SDA at the ninth clock of a byte: low, acknowledged; high, not.
#[derive(Clone, Copy, PartialEq, Eq)]
pub enum Level {
    Low,
    High,
}

// What the wires did, or the bench's clock. ACK and NACK are one event, the ninth clock with the level seen; where nobody acknowledges, that a byte went out is SENT.
#[derive(Clone, Copy, PartialEq, Eq)]
pub enum Event {
    Ninth(Level),
    Byte(u8),
    Tick,
    Stop,
    Sda,
    Scl,
    Ill,
    Sent,
}

// An edge of the trigger.
#[derive(Clone, Copy, PartialEq, Eq)]
pub enum Edge {
    Rising,
    Falling,
}
