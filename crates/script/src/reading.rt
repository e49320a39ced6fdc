// A line of the script: the step that it asks for, or none where it can't be read.
ghost use Rattle.std.specs.Prelude.{◌≡◌, ◌<◌};
ghost use Rattle.script.specs.Grammar.{line_room, is_hex, hex_of, digit_at, byte_at, suiting, in_form, wire_line, line_of, edge_line, event_line, clock_line, fault_line};

use rules::{Device, Edge, Event, Level};
use steps::Step;

// A line of so many bytes, or more, can't be read: every form is shorter (`line_room`).
pub const LINE_ROOM: usize = 16;

#[tactic(auto, using(laws::specs::Cases::cases), unfolding(crate::specs::Grammar::is_hex))]
fn is_hex(b: u8) -> bool
    ensures { result ≡ is_hex b }
{
    matches!(b, b'0'..=b'9' | b'A'..=b'F')
}

#[tactic(auto, using(laws::specs::Cases::cases), unfolding(crate::specs::Grammar::hex_of, crate::specs::Grammar::is_hex))]
fn hex(b: u8) -> u8
    ensures { (result ≡ hex_of b) × (result < 16) }
{
    match b {
        b'0'..=b'9' => b - b'0',
        b'A'..=b'F' => b - b'A' + 10,
        _ => 0,
    }
}

#[tactic(auto, using(crate::proofs::Laws::Reading::digit_past))]
fn digit_at(line: &[u8], i: usize) -> u8
    ensures { (result ≡ digit_at line.now i) × (result < 16) }
{
    line.get(i).map_or(0, |&b| hex(b))
}

#[tactic(auto, unfolding(crate::specs::Grammar::line_room))]
fn byte_at(line: &[u8], i: usize) -> u8
    requires { i < line_room }
    ensures { result ≡ byte_at line.now i }
{
    16 * digit_at(line, i) + digit_at(line, i + 1)
}

#[tactic(auto, using(laws::specs::Cases::cases), unfolding(crate::specs::Grammar::suiting))]
fn suits(letter: u8, b: u8) -> bool
    ensures { result ≡ suiting letter b }
{
    if b'a' <= letter {
        is_hex(b)
    } else {
        b == letter
    }
}

fn in_form(form: &[u8], line: &[u8]) -> bool
    ensures { result ≡ in_form form.now line.now }
{
    form.len() == line.len() && form.iter().zip(line).all(|(&letter, &b)| suits(letter, b))
}

// ---- the forms: each test is a row of the grammar, in its order (`line_of`); slice patterns would not show the forms as texts

fn wire(line: &[u8], e: Event) -> Option<Step>
    ensures { result ≡ wire_line line.now e }
{
    Some(Step::Wire(digit_at(line, 2), e))
}

#[tactic(auto, using(laws::specs::Cases::cases), unfolding(crate::specs::Grammar::fault_line))]
fn read_fault(line: &[u8]) -> Option<Step>
    ensures { result ≡ fault_line line.now }
{
    if in_form(b"E c SDA", line) {
        return wire(line, Event::Sda);
    }
    if in_form(b"E c SCL", line) {
        return wire(line, Event::Scl);
    }
    if in_form(b"E c ILL", line) {
        return wire(line, Event::Ill);
    }
    None
}

#[tactic(auto, using(laws::specs::Cases::cases), unfolding(crate::specs::Grammar::clock_line))]
fn read_clock(line: &[u8]) -> Option<Step>
    ensures { result ≡ clock_line line.now }
{
    if in_form(b"E c TICK", line) {
        return wire(line, Event::Tick);
    }
    if in_form(b"E c STOP", line) {
        return wire(line, Event::Stop);
    }
    read_fault(line)
}

#[tactic(auto, using(laws::specs::Cases::cases), unfolding(crate::specs::Grammar::line_room, crate::specs::Grammar::event_line))]
fn read_event(line: &[u8]) -> Option<Step>
    ensures { result ≡ event_line line.now }
{
    if in_form(b"E c ACK", line) {
        return wire(line, Event::Ninth(Level::Low));
    }
    if in_form(b"E c SENT", line) {
        return wire(line, Event::Sent);
    }
    if in_form(b"E c NACK", line) {
        return wire(line, Event::Ninth(Level::High));
    }
    if in_form(b"E c BYTE bb", line) {
        return wire(line, Event::Byte(byte_at(line, 9)));
    }
    read_clock(line)
}

#[tactic(auto, using(laws::specs::Cases::cases), unfolding(crate::specs::Grammar::edge_line))]
fn read_edge(line: &[u8]) -> Option<Step>
    ensures { result ≡ edge_line line.now }
{
    if in_form(b"T R", line) {
        return Some(Step::Trigger(Edge::Rising));
    }
    if in_form(b"T F", line) {
        return Some(Step::Trigger(Edge::Falling));
    }
    read_event(line)
}

// The step of a line, which has no LF.
#[tactic(auto, using(laws::specs::Cases::cases), unfolding(crate::specs::Grammar::line_room, crate::specs::Grammar::line_of))]
pub fn read_line(line: &[u8]) -> Option<Step>
    ensures { result ≡ line_of line.now }
{
    if in_form(b"W aa dd", line) {
        return Some(Step::Write(byte_at(line, 2), byte_at(line, 5)));
    }
    if in_form(b"R aa", line) {
        return Some(Step::Read(byte_at(line, 2)));
    }
    if in_form(b"X", line) {
        return Some(Step::Reset(Device::Pca9663));
    }
    if in_form(b"X 9669", line) {
        return Some(Step::Reset(Device::Pcu9669));
    }
    read_edge(line)
}
