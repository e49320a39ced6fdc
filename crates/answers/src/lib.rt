// The lines that the script program prints: the header, and a line for each answer.
#![tactic(auto)]

ghost use Rattle.std.specs.Prelude.{◌≡◌, ◌+◌, ◌<◌, ◌≤◌, length, take};
ghost use Rattle.answers.specs.Answer.{Put, decimal_of, level_of, middle_of, busy_of, only_if, entry_of, action_of, actions_of, answer_line, header, answer_room, roomy, text_if, no_answer};

use rules::{Action, Refusal};
use steps::PartAnswer;

// The bytes that have to be left where a line is put (`answer_room`).
pub const ANSWER_ROOM: usize = 80;

// ---- pieces of text, each put at a place of the output; the place after it comes back, as `Put` has it, which `put`, `write_header` and `write_answer` promise

// Puts a text into a buffer at a place.
pub fn put(out: &mut [u8], at: usize, text: &[u8]) -> usize
    requires { at + length text.now ≤ length out.old }
    ensures { Put out.old at text.now result out.new }
{
    let end = at + text.len();
    out[at..end].copy_from_slice(text);
    end
}

fn put_if(out: &mut [u8], at: usize, wanted: bool, b: u8) -> usize
    requires { at + 1 ≤ length out.old }
    ensures { Put out.old at (only_if wanted b) result out.new × (result ≤ at + 1) }
{
    if wanted { put(out, at, &[b]) } else { at }
}

fn put_decimal(out: &mut [u8], at: usize, x: u64) -> usize
    requires { at + 20 ≤ length out.old }
    ensures { Put out.old at (decimal_of x) result out.new × (result ≤ at + 20) }
{
    let mut digits = itoa::Buffer::new();
    put(out, at, digits.format(x).as_bytes())
}

#[tactic(auto, using(laws::specs::Cases::cases), unfolding(crate::specs::Answer::level_of))]
fn level(int: bool) -> u8
    ensures { result ≡ level_of int }
{
    if int { b'1' } else { b'0' }
}

fn put_middle(out: &mut [u8], at: usize, value: u8, int: bool) -> usize
    requires { at + 6 ≤ length out.old }
    ensures { Put out.old at (middle_of value int) result out.new }
{
    let [high, low] = letters::hex(value);
    put(out, at, &[b' ', high, low, b' ', level(int), b' '])
}

// ---- the actions

fn busy(a: Action) -> bool
    ensures { result ≡ busy_of a }
{
    a != Action::Nothing
}

fn put_entry(out: &mut [u8], at: usize, later: bool, c: u8, a: Action) -> usize
    requires { (at + 7 ≤ length out.old) × (c < 10) }
    ensures { Put out.old at (entry_of later c a) result out.new × (result ≤ at + 7) }
{
    let at = put_if(out, at, later, b',');
    let at = put(out, at, &[b'0' + c, b':']);
    let text = letters::spell(a);
    put(out, at, &text.bytes[..text.len])
}

fn put_action(out: &mut [u8], at: usize, later: bool, c: u8, a: Action) -> usize
    requires { (at + 7 ≤ length out.old) × (c < 10) }
    ensures { Put out.old at (action_of later c a) result out.new × (result ≤ at + 7) }
{
    if busy(a) {
        put_entry(out, at, later, c, a)
    } else {
        at
    }
}

// Three in a row, as `by_commas` has them: a loop would need the rule of the commas said of the first c channels.
fn put_actions(out: &mut [u8], at: usize, acts: [Action; 3]) -> usize
    requires { at + 22 ≤ length out.old }
    ensures { Put out.old at (actions_of acts) result out.new × (result ≤ at + 22) }
{
    let [first, second, third] = acts;
    let one = busy(first);
    let two = one || busy(second);
    if two || busy(third) {
        let at = put_action(out, at, false, 0, first);
        let at = put_action(out, at, one, 1, second);
        put_action(out, at, two, 2, third)
    } else {
        put(out, at, b"-")
    }
}

// ---- the lines

fn has_room(len: usize, at: usize) -> bool
    ensures { result ≡ roomy len at }
{
    ANSWER_ROOM <= len && at <= len - ANSWER_ROOM
}

fn put_line(step: u64, reply: PartAnswer, int: bool, out: &mut [u8], at: usize) -> usize
    requires { at + answer_room ≤ length out.old }
    ensures { Put out.old at (answer_line step reply int) result out.new × (result ≤ at + answer_room) }
{
    let at = put_decimal(out, at, step);
    let at = put(out, at, b" ");
    let at = put_decimal(out, at, reply.number as u64);
    let at = put_middle(out, at, reply.value, int);
    let at = put_actions(out, at, reply.actions);
    put(out, at, b"\n")
}

// Puts the header line into the output at a place, and gives the place after it. With fewer than ANSWER_ROOM bytes left it puts nothing.
pub fn write_header(out: &mut [u8], at: usize) -> usize
    ensures { Put out.old at (text_if (roomy (length out.old) at) header) result out.new }
{
    if has_room(out.len(), at) {
        put(out, at, b"step code value int actions\n")
    } else {
        at
    }
}

// Puts the line of an answer, that of step number `step` after which INT is `int`, in the same way.
pub fn write_answer(step: u64, reply: PartAnswer, int: bool, out: &mut [u8], at: usize) -> usize
    ensures { Put out.old at (text_if (roomy (length out.old) at) (answer_line step reply int)) result out.new × (result ≤ at + answer_room) }
{
    if has_room(out.len(), at) {
        put_line(step, reply, int, out, at)
    } else {
        at
    }
}

// The answer to a line that can't be read.
pub fn unreadable() -> PartAnswer
    ensures { result ≡ no_answer }
{
    PartAnswer::refused(Refusal::Unreadable)
}
