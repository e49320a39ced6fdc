// The walks that the rules leave, and the flags of CHSTATUS after a reset: each by its definition's name.
#![tactic(auto, using(laws::specs::Cases::cases), unfolding(crate::specs::Walk::end_walk))]

ghost use Rattle.std.specs.Prelude.{◌≡◌};
ghost use Rattle.sequence.specs.Walk.{idle, waiting, no_flags, end_walk};

use crate::wires::Ending;
use rules::{Flags, Phase, Walk};

pub fn idle_walk() -> Walk
    ensures { result ≡ idle }
{
    Walk::default()
}

pub fn waiting_walk(ended: u8) -> Walk
    ensures { result ≡ waiting ended }
{
    Walk {
        phase: Phase::Waiting,
        ended,
        ..idle_walk()
    }
}

// By itself, since must-fail/sd_after_reset is refused by it.
pub fn no_flags() -> Flags
    ensures { result ≡ no_flags }
{
    Flags::default()
}

// After a frame's end.
pub fn end_walk(e: Ending) -> Walk
    ensures { result ≡ end_walk e }
{
    match e {
        Ending::Wait(n) => waiting_walk(n),
        _ => idle_walk(),
    }
}
