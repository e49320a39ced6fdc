// Document 01, 'A sequence on the wires': what a write to CONTROL asks for, how a frame begins, what an event comes to, where a walk goes on, how a frame ends, and a trigger edge.
// TE and FRAMECNT stand side by side, since they are of two structs (Regs, Settings) by the data sheet, and each definition takes both; the tables each by
// itself, since this crate stands below `Channel`; `halted` and `ends` take the recorded bits, since a `Walk` would ask more of callers. `again_by`, `stop_by`
// and `beat_turn` are tables of document 01 by their names, where a `From` would be no plainer.
#![tactic(auto, using(crate::proofs::Laws::Wires::frames), unfolding(crate::specs::Wires::stop_asked, crate::specs::Wires::start_asked, crate::specs::Wires::leave_asked, crate::specs::Wires::asked_in, crate::specs::Wires::ask_of, crate::specs::Wires::beginning_of, crate::specs::Wires::masked_of, crate::specs::Wires::halted_of, crate::specs::Wires::next_of, crate::specs::Wires::reach_of, crate::specs::Wires::move_of, crate::specs::Wires::ticking_of, crate::specs::Wires::tick_turn, crate::specs::Wires::heard_turn, crate::specs::Wires::turn_of, crate::specs::Wires::ending_of, crate::specs::Wires::rest_of, crate::specs::Wires::fld_after, crate::specs::Wires::edge_beat))]

ghost use Rattle.std.specs.Prelude.{◌≡◌, ◌+◌, ◌<◌, ◌≤◌, length, set, get_or};
ghost use Rattle.rules.specs.Numbers.{buffer_size};
ghost use Rattle.rules.specs.Tables.{start_of};
ghost use Rattle.sequence.specs.Wires.{stop_asked, start_asked, leave_asked, asked_in, ask_of, beginning_of, again_by};
ghost use Rattle.sequence.specs.Wires.{ack_turn, byte_turn, nack_turn, ninth_turn, masked_of, halted_of, next_of, reach_of, move_of, stop_by};
ghost use Rattle.sequence.specs.Wires.{ticking_of, beat_of, beat_turn, tick_turn, stop_turn, sda_turn, scl_turn, heard_turn, hears_of, turn_of, ending_of, rest_of, fld_after, matches_of, edge_beat};
ghost use Rattle.sequence.specs.Facts.{Counting, Ready, Exists};

use rules::{
    Action, Command, Edge, Event, Kind, Level, Phase, REMSK, WEMSK, bit, byte, first_sent, is_fm,
    start_of,
};

// Which step to run is the value of a definition (`ask_of`, `beginning_of`, `turn_of`, `next_of`, `edge_beat`, `ending_of`) and promised, so an enum and no closure.

// What is left of a write to CONTROL after TP, TE and the pointer resets.
#[derive(Clone, Copy, PartialEq, Eq)]
pub enum Ask {
    Nothing,
    Overrun,
    Begin,
    Wait,
    Sto,
    Seq,
    Leave,
}

// How a frame begins.
#[derive(Clone, Copy, PartialEq, Eq)]
pub enum Beginning {
    Empty,
    Unfit,
    Fit,
}

// What an event comes to in the phase that it meets.
#[derive(Clone, Copy, PartialEq, Eq)]
pub enum Turn {
    Unawaited,
    AckAddress(usize),
    AckSending(usize),
    Receive(usize, u8),
    NackAddress(usize),
    NackSending(usize),
    Begin,
    Late,
    End,
    Fault(Fault),
}

// After a byte, or the address of a write: cut short, one more byte, or over.
#[derive(Clone, Copy, PartialEq, Eq)]
pub enum Next {
    Cut,
    More,
    Over,
}

// The next move of a walk: a stop, or the transaction to send. No `Option`: 'the helper's next-move enum is taken apart by let .. else'.
#[derive(Clone, Copy, PartialEq, Eq)]
pub enum Move {
    Halt,
    Send(usize),
}

// Whether the last byte has yet to be refused by the channel itself: P and R, or NP and NR.
#[derive(Clone, Copy, PartialEq, Eq)]
pub enum Tail {
    Plain,
    Nacked,
}

// What a TICK or a matching trigger edge does: nothing, begin a frame, or be late.
#[derive(Clone, Copy, PartialEq, Eq)]
pub enum Beat {
    Quiet,
    Begin,
    Late,
}

// SDA, SCL and ILL, by the flag that each sets.
#[derive(Clone, Copy, PartialEq, Eq)]
pub enum Fault {
    Dae,
    Cle,
    Sse,
}

// How a frame ends: FE recorded, an error end, SD and Idle, or SD and Waiting with the number of ended frames.
#[derive(Clone, Copy, PartialEq, Eq)]
pub enum Ending {
    Fe,
    Error,
    Sd,
    Wait(u8),
}

// ---- CONTROL

fn stop_asked(sto: bool, seq: bool) -> Ask
    ensures { result ≡ stop_asked sto seq }
{
    if sto {
        Ask::Sto
    } else if seq {
        Ask::Seq
    } else {
        Ask::Nothing
    }
}

fn start_asked(sta: bool, te: bool) -> Ask
    ensures { result ≡ start_asked sta te }
{
    if !sta {
        Ask::Nothing
    } else if te {
        Ask::Wait
    } else {
        Ask::Begin
    }
}

fn leave_asked(sto: bool, seq: bool) -> Ask
    ensures { result ≡ leave_asked sto seq }
{
    if sto || seq { Ask::Leave } else { Ask::Nothing }
}

fn asked_in(p: Phase, k: Command, te: bool) -> Ask
    ensures { result ≡ asked_in p k te }
{
    match p {
        Phase::Idle => start_asked(k.sta, te),
        Phase::Waiting => leave_asked(k.sto, k.stoseq),
        _ => stop_asked(k.sto, k.stoseq),
    }
}

pub fn ask_of(p: Phase, k: Command, te: bool, over: bool) -> Ask
    ensures { result ≡ ask_of p k te over }
{
    if over {
        Ask::Overrun
    } else {
        asked_in(p, k, te)
    }
}

// ---- a frame begins

pub fn begins(count: usize, fit: bool) -> Beginning
    ensures { result ≡ beginning_of count fit }
{
    if count == 0 {
        Beginning::Empty
    } else if fit {
        Beginning::Fit
    } else {
        Beginning::Unfit
    }
}

pub fn again_by(t: Tail, sla: u8) -> Action
    ensures { result ≡ again_by t sla }
{
    match t {
        Tail::Plain => Action::R(sla),
        Tail::Nacked => Action::Nr(sla),
    }
}

// ---- events

// ACK and NACK by themselves: two rows of document 01, two definitions.
fn ack_turn(p: Phase) -> Turn
    ensures { result ≡ ack_turn p }
{
    match p {
        Phase::Address(n) => Turn::AckAddress(n as usize),
        Phase::Sending(n) => Turn::AckSending(n as usize),
        _ => Turn::Unawaited,
    }
}

fn byte_turn(p: Phase, b: u8) -> Turn
    ensures { result ≡ byte_turn p b }
{
    match p {
        Phase::Receiving(n) => Turn::Receive(n as usize, b),
        _ => Turn::Unawaited,
    }
}

fn nack_turn(p: Phase) -> Turn
    ensures { result ≡ nack_turn p }
{
    match p {
        Phase::Address(n) => Turn::NackAddress(n as usize),
        Phase::Sending(n) => Turn::NackSending(n as usize),
        _ => Turn::Unawaited,
    }
}

fn ninth_turn(p: Phase, l: Level) -> Turn
    ensures { result ≡ ninth_turn p l }
{
    match l {
        Level::Low => ack_turn(p),
        Level::High => nack_turn(p),
    }
}

// Whether WE, or RE of a read, is masked.
pub fn masked(intmsk: u8, read: bool) -> bool
    ensures { result ≡ masked_of intmsk read }
{
    bit(intmsk, if read { REMSK } else { WEMSK })
}

// ---- after each

pub fn halted(fe: bool, sto: bool) -> bool
    ensures { result ≡ halted_of fe sto }
{
    fe || sto
}

// What follows n bytes of a transaction.
pub fn next_byte(halt: bool, n: usize, len: usize) -> Next
    ensures { (result ≡ next_of halt n len) × Ready result n len }
{
    if len <= n {
        Next::Over
    } else if halt {
        Next::Cut
    } else {
        Next::More
    }
}

// The byte of a BYTE stored: behind those of transaction n that came before it. By itself, since must-fail/byte_not_stored is refused by it.
pub fn store(lens: &[u8; 65], counts: &[u8; 64], mem: &mut [u8], n: usize, b: u8)
    requires { Counting lens.now counts.now n × (length mem.old ≡ buffer_size) }
    ensures { mem.new ≡ set mem.old (start_of lens.now n + get_or counts.now n 0) b }
{
    let i = start_of(lens, n) + byte(counts[n]);
    mem[i] = b;
}

// How far the walk goes on behind transaction n.
pub fn reach(kind: Kind, halt: bool, n: usize, sla: &[u8; 64], lens: &[u8; 65]) -> usize
    requires { (n < get_or lens.now 0 0) × (get_or lens.now 0 0 ≤ 64) }
    ensures { (result ≡ reach_of kind halt n sla.now lens.now) × (n + 1 ≤ result) × (result ≤ 64) }
{
    if halt {
        return n + 1;
    }
    first_sent(kind, sla, lens, n + 1, byte(lens[0]))
}

// Either a stop or the transaction to send.
pub fn next_move(halt: bool, to: usize, count: usize) -> Move
    requires { count ≤ 64 }
    ensures { (result ≡ move_of halt to count) × Exists result }
{
    if halt || count <= to {
        Move::Halt
    } else {
        Move::Send(to)
    }
}

pub fn stop_by(t: Tail) -> Action
    ensures { result ≡ stop_by t }
{
    match t {
        Tail::Plain => Action::P,
        Tail::Nacked => Action::Np,
    }
}

// ---- the other events

fn ticking(te: bool, framecnt: u8) -> bool
    ensures { result ≡ ticking_of te framecnt }
{
    !te && framecnt != 1
}

fn beat_of(p: Phase) -> Beat
    ensures { result ≡ beat_of p }
{
    match p {
        Phase::Idle => Beat::Quiet,
        Phase::Waiting => Beat::Begin,
        _ => Beat::Late,
    }
}

fn beat_turn(b: Beat) -> Turn
    ensures { result ≡ beat_turn b }
{
    match b {
        Beat::Quiet => Turn::Unawaited,
        Beat::Begin => Turn::Begin,
        Beat::Late => Turn::Late,
    }
}

fn tick_turn(p: Phase, te: bool, framecnt: u8) -> Turn
    ensures { result ≡ tick_turn p te framecnt }
{
    if ticking(te, framecnt) {
        beat_turn(beat_of(p))
    } else {
        Turn::Unawaited
    }
}

fn stop_turn(p: Phase) -> Turn
    ensures { result ≡ stop_turn p }
{
    match p {
        Phase::Stopping => Turn::End,
        _ => Turn::Unawaited,
    }
}

fn sda_turn(p: Phase) -> Turn
    ensures { result ≡ sda_turn p }
{
    match p {
        Phase::Address(_) => Turn::Fault(Fault::Dae),
        _ => Turn::Unawaited,
    }
}

fn scl_turn(p: Phase) -> Turn
    ensures { result ≡ scl_turn p }
{
    match p {
        Phase::Idle => Turn::Unawaited,
        _ => Turn::Fault(Fault::Cle),
    }
}

// What an event comes to where it is heard.
fn heard_turn(p: Phase, te: bool, framecnt: u8, e: Event) -> Turn
    ensures { result ≡ heard_turn p te framecnt e }
{
    match e {
        Event::Ninth(l) => ninth_turn(p, l),
        Event::Byte(b) => byte_turn(p, b),
        Event::Tick => tick_turn(p, te, framecnt),
        Event::Stop => stop_turn(p),
        Event::Sda => sda_turn(p),
        Event::Scl => scl_turn(p),
        Event::Ill => Turn::Fault(Fault::Sse),
        Event::Sent => ack_turn(p),
    }
}

// Whether a channel of this kind hears an event at all.
fn hears(kind: Kind, e: Event) -> bool
    ensures { result ≡ hears_of kind e }
{
    let fm = is_fm(kind);
    match e {
        Event::Tick | Event::Stop | Event::Ill => true,
        Event::Ninth(_) | Event::Byte(_) | Event::Sda | Event::Scl => fm,
        Event::Sent => !fm,
    }
}

// What an event comes to.
pub fn turn_of(kind: Kind, p: Phase, te: bool, framecnt: u8, e: Event) -> Turn
    ensures { result ≡ turn_of kind p te framecnt e }
{
    if hears(kind, e) {
        heard_turn(p, te, framecnt, e)
    } else {
        Turn::Unawaited
    }
}

// ---- a frame's end

// The first of the frame-end rules that applies.
pub fn ends(fe: bool, error: bool, sto: bool, seq: bool, rest: Ending) -> Ending
    ensures { result ≡ ending_of fe error sto seq rest }
{
    if fe {
        Ending::Fe
    } else if error {
        Ending::Error
    } else if sto || seq {
        Ending::Sd
    } else {
        rest
    }
}

pub fn rest(te: bool, framecnt: u8, ended: u8) -> Ending
    ensures { result ≡ rest_of te framecnt ended }
{
    if te || framecnt == 0 {
        Ending::Wait(0)
    } else if ended < framecnt - 1 {
        Ending::Wait(ended + 1)
    } else {
        Ending::Sd
    }
}

// FLD where a channel goes Idle with SD.
pub fn fld_after(te: bool, framecnt: u8, old: bool) -> bool
    ensures { result ≡ fld_after te framecnt old }
{
    te || framecnt != 1 || old
}

// ---- a trigger edge

fn matches(tp: bool, edge: Edge) -> bool
    ensures { result ≡ matches_of tp edge }
{
    match edge {
        Edge::Rising => !tp,
        Edge::Falling => tp,
    }
}

// What a trigger edge does.
pub fn edge_beat(p: Phase, te: bool, tp: bool, edge: Edge) -> Beat
    ensures { result ≡ edge_beat p te tp edge }
{
    if te && matches(tp, edge) {
        beat_of(p)
    } else {
        Beat::Quiet
    }
}
