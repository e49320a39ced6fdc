// Document 01, 'The part as the processor sees it': the address map, and whom a step concerns.
#![tactic(auto, using(laws::specs::Cases::cases), unfolding(crate::specs::Map::channel_at, crate::specs::Map::ctrl_at, crate::specs::Map::write_target, crate::specs::Map::read_target, crate::specs::Map::wire_target, crate::specs::Map::target_of))]

ghost use Rattle.std.specs.Prelude.{◌≡◌};
ghost use Rattle.steps.specs.Map.{channel_at, ctrl_at, write_target, read_target, wire_target, target_of};
ghost use Rattle.steps.specs.Facts.{InPart};

use rules::{Device, Edge, Event};

// A step of a single channel: a write of a byte at an address, a read at an address, or what its wires did.
#[derive(Clone, Copy, PartialEq, Eq)]
pub enum Op {
    Write(u8, u8),
    Read(u8),
    Wire(Event),
}

// A step of the part: the processor writes a byte at an address or reads one, a channel's wires did something, an edge of the trigger, the hardware reset, which chooses the part.
#[derive(Clone, Copy, PartialEq, Eq)]
pub enum Step {
    Write(u8, u8),
    Read(u8),
    Wire(u8, Event),
    Trigger(Edge),
    Reset(Device),
}

// A register of the whole part, at F0h to FFh.
#[derive(Clone, Copy, PartialEq, Eq)]
pub enum Ctrl {
    Ctrlstatus,
    Ctrlintmsk,
    Reserved,
    DeviceId,
    Ctrlpreset,
    Nothing,
    Ctrlrdy,
}

// A step of the whole part: a write or a read of its registers, a trigger edge, the hardware reset, or nobody's (an event of a channel above 2).
#[derive(Clone, Copy, PartialEq, Eq)]
pub enum Wide {
    CtrlWrite(Ctrl, u8),
    CtrlRead(Ctrl),
    AllTrigger(Edge),
    AllReset(Device),
    Beyond,
}

// Whom a step concerns: one channel, by what is asked of it and its number; or the whole part, or nobody.
#[derive(Clone, Copy, PartialEq, Eq)]
pub enum Target {
    One(Op, u8),
    All(Wide),
}

// 3 for the whole part, as definition `channel_at` gives it.
fn channel_at(a: u8) -> u8
    ensures { result ≡ channel_at a }
{
    if a < 0xC0 { a / 64 } else { a / 16 - 12 }
}

fn ctrl_at(a: u8) -> Ctrl
    ensures { result ≡ ctrl_at a }
{
    match a {
        0xF0 => Ctrl::Ctrlstatus,
        0xF1 => Ctrl::Ctrlintmsk,
        ..=0xF5 => Ctrl::Reserved,
        0xF6 => Ctrl::DeviceId,
        0xF7 => Ctrl::Ctrlpreset,
        ..=0xFE => Ctrl::Nothing,
        _ => Ctrl::Ctrlrdy,
    }
}

// Three, as the definitions are: one over a `Wide` would look up `ctrl_at` for a channel's address too.
fn write_target(a: u8, v: u8) -> Target
    ensures { (result ≡ write_target a v) × InPart result }
{
    let c = channel_at(a);
    if c < 3 {
        Target::One(Op::Write(a, v), c)
    } else {
        Target::All(Wide::CtrlWrite(ctrl_at(a), v))
    }
}

fn read_target(a: u8) -> Target
    ensures { (result ≡ read_target a) × InPart result }
{
    let c = channel_at(a);
    if c < 3 {
        Target::One(Op::Read(a), c)
    } else {
        Target::All(Wide::CtrlRead(ctrl_at(a)))
    }
}

fn wire_target(c: u8, e: Event) -> Target
    ensures { (result ≡ wire_target c e) × InPart result }
{
    if c < 3 {
        Target::One(Op::Wire(e), c)
    } else {
        Target::All(Wide::Beyond)
    }
}

// Whom a step concerns.
pub fn target_of(s: Step) -> Target
    ensures { (result ≡ target_of s) × InPart result }
{
    match s {
        Step::Write(a, v) => write_target(a, v),
        Step::Read(a) => read_target(a),
        Step::Wire(c, e) => wire_target(c, e),
        Step::Trigger(edge) => Target::All(Wide::AllTrigger(edge)),
        Step::Reset(d) => Target::All(Wide::AllReset(d)),
    }
}
