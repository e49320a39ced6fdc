// A file read into a channel of the part, and written from one: a step of that channel, with the file's buffer.
// `load_into` and `save_from` answer a refusal themselves: for a `?` each would need one function more, and a contract of that.
ghost use Rattle.std.specs.Prelude.{◌≡◌};
ghost use Rattle.rules.specs.Numbers.{number_of};
ghost use Rattle.works.specs.Facts.{call_number};
ghost use Rattle.works.specs.Idle.{call_step, call_bytes, call_out};
ghost use Rattle.files.specs.Deeds.{load_work, save_work};

use crate::single::{load_sound, save_sound};
use part::{Part, PartStepped};
use rules::{BUFFER, Refusal, number_of};

// No. 9, then no. 1.
#[tactic(auto, using(laws::specs::Cases::cases), unfolding(works::specs::Facts::call_number))]
fn call_refusal(p: &Part, len: usize, c: u8) -> Result<(), Refusal>
    ensures { number_of result ≡ call_number p.now len c }
{
    if !p.accepts_len(len) {
        return Err(Refusal::OutOfRange);
    }
    if 2 < c {
        return Err(Refusal::Nowhere);
    }
    Ok(())
}

// Reads a file into an Idle channel of the part, at any part, any memory, any channel number and any file.
pub fn load_into(mut p: Part, mem: &mut [u8], c: u8, file: &[u8]) -> PartStepped
    ensures { (result ≡ call_step (load_work file.now) p mem.old c) × (mem.new ≡ call_bytes (load_work file.now) p mem.old c) }
{
    if let Err(refusal) = call_refusal(&p, mem.len(), c) {
        return p.answer(refusal.number());
    }
    let i = usize::from(c);
    let start = BUFFER * i;
    let outcome = load_sound(&mut p.channels[i], &mut mem[start..start + BUFFER], file);
    p.answer(number_of(outcome))
}

// Writes the file of an Idle channel of the part, at any part, any memory, any channel number and any output.
pub fn save_from(p: Part, mem: &[u8], c: u8, out: &mut [u8]) -> PartStepped
    ensures { (result ≡ call_step (save_work out.old) p mem.now c) × (out.new ≡ call_out (save_work out.old) p mem.now c) }
{
    if let Err(refusal) = call_refusal(&p, mem.len(), c) {
        return p.answer(refusal.number());
    }
    let i = usize::from(c);
    let start = BUFFER * i;
    let outcome = save_sound(&p.channels[i], &mem[start..start + BUFFER], out);
    p.answer(number_of(outcome))
}
