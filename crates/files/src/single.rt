// A file read into a single channel, and written from one: the record by value, and its 4,352 bytes.
// `load` and `save` answer no. 9 themselves: for a `?` each would need one function more, and a contract of that.
ghost use Rattle.std.specs.Prelude.{◌++◌, ◌≡◌, ◌+◌, ◌≤◌, true, length, replicate};
ghost use Rattle.rules.specs.Numbers.{buffer_size, number_of};
ghost use Rattle.channel.specs.Facts.{Accepted};
ghost use Rattle.channel.specs.Range.{in_range};
ghost use Rattle.works.specs.Facts.{Did};
ghost use Rattle.works.specs.Idle.{own_by, alone_by};
ghost use Rattle.files.specs.File.{over};
ghost use Rattle.files.specs.Work.{rewound_head, loaded, loaded_bytes, file_from, room_number};
ghost use Rattle.files.specs.Deeds.{load_deed, save_deed, load_work, save_work};
ghost use Rattle.files.specs.Facts.{Filed};

use crate::format::{HEADER, count, fault_of, header, put_two};
use channel::{Channel, Stepped, range_number};
use head::Head;
use rules::{BUFFER, Refusal, busy_refusal, number_of, start_of};

// ---- reading

// Puts the bytes, and zero behind them.
fn fill(mem: &mut [u8], content: &[u8])
    requires { length content.now ≤ length mem.old }
    ensures { mem.new ≡ over content.now (replicate (length mem.old) 0) }
{
    let (front, rest) = mem.split_at_mut(content.len());
    front.copy_from_slice(content);
    rest.fill(0);
}

fn rewind(h: &mut Head)
    ensures { h.new ≡ rewound_head h.old }
{
    h.regs.transel = 0;
    h.regs.tranofs = 0;
    h.ptrs.sla = 0;
    h.ptrs.conf = 0;
    h.ptrs.buf = 0;
}

// Puts the blocks of a readable file, from the part after its header, and zero behind each.
fn take_blocks(c: &mut Channel, mem: &mut [u8], file: &[u8])
    requires { (length mem.old ≡ buffer_size) × Filed file.now }
    ensures { (c.new ≡ loaded file.now c.old) × (mem.new ≡ loaded_bytes file.now) }
{
    let n = count(file);
    let body = &file[HEADER..];
    fill(&mut c.slatable, &body[..n]);
    c.tranconfig[0] = file[0];
    fill(&mut c.tranconfig[1..], &body[n..2 * n]);
    fill(mem, &body[2 * n..]);
    rewind(&mut c.head);
}

// Reads the file into a channel that no. 9 does not refuse.
pub(crate) fn load_sound(c: &mut Channel, mem: &mut [u8], file: &[u8]) -> Result<(), Refusal>
    requires { Accepted c.old mem.old }
    ensures { Did (load_deed file.now) (own_by c.old mem.old) result (own_by c.new mem.new) file.now }
{
    busy_refusal(c.head.walk.phase)?;
    fault_of(file)?;
    take_blocks(c, mem, file);
    Ok(())
}

// Reads a file into an Idle channel, at any record, any memory and any file.
pub fn load(mut c: Channel, mem: &mut [u8], file: &[u8]) -> Stepped
    ensures { (result ≡ (alone_by (load_work file.now) c mem.old).stepped) × (mem.new ≡ (alone_by (load_work file.now) c mem.old).bytes) }
{
    if let Err(refusal) = range_number(mem.len(), c.in_range()) {
        return c.answer(refusal.number());
    }
    let outcome = load_sound(&mut c, mem, file);
    c.answer(number_of(outcome))
}

// ---- writing

// Puts the header and the blocks; the bytes behind them stay.
fn put_file(out: &mut [u8], head: &[u8], addresses: &[u8], lengths: &[u8], content: &[u8])
    requires { length head.now + length addresses.now + (length lengths.now + length content.now) ≤ length out.old }
    ensures { out.new ≡ over ((head.now ++ addresses.now) ++ (lengths.now ++ content.now)) out.old }
{
    put_two(out, head, addresses);
    let half = head.len() + addresses.len();
    put_two(&mut out[half..], lengths, content);
}

// Writes the file of the first count transactions.
#[tactic(auto, using(crate::proofs::Laws::Calls::count_few))]
fn save_tables(c: &Channel, mem: &[u8], out: &mut [u8])
    requires { Accepted c.now mem.now × (room_number c.now.tranconfig (length out.old) ≡ 0) }
    ensures { out.new ≡ over (file_from (own_by c.now mem.now)) out.old }
{
    let n = usize::from(c.tranconfig[0]);
    let s = start_of(&c.tranconfig, n);
    let head = header(n, s);
    put_file(
        out,
        head.as_flattened(),
        &c.slatable[..n],
        &c.tranconfig[1..=n],
        &mem[..s],
    );
}

#[tactic(auto, using(laws::specs::Cases::cases, crate::proofs::Laws::Calls::count_few), unfolding(crate::specs::Work::room_number, rules::specs::Tables::fitting))]
fn room_refusal(c: &Channel, room: usize) -> Result<(), Refusal>
    requires { in_range c.now ≡ true }
    ensures { number_of result ≡ room_number c.now.tranconfig room }
{
    let n = usize::from(c.tranconfig[0]);
    let s = start_of(&c.tranconfig, n);
    if BUFFER < s || room < HEADER + 2 * n + s {
        Err(Refusal::NoRoom)
    } else {
        Ok(())
    }
}

// Writes the file of a channel that no. 9 does not refuse.
pub(crate) fn save_sound(c: &Channel, mem: &[u8], out: &mut [u8]) -> Result<(), Refusal>
    requires { Accepted c.now mem.now }
    ensures { Did (save_deed out.old) (own_by c.now mem.now) result (own_by c.now mem.now) out.new }
{
    busy_refusal(c.head.walk.phase)?;
    room_refusal(c, out.len())?;
    save_tables(c, mem, out);
    Ok(())
}

// Writes the file of an Idle channel's first count transactions, at any record, any memory and any output.
// `save` and `load` share no function over a closure: it would spare three lines, and have to promise what a closure leaves in the bytes that it has captured.
pub fn save(c: Channel, mem: &[u8], out: &mut [u8]) -> Stepped
    ensures { (result ≡ (alone_by (save_work out.old) c mem.now).stepped) × (out.new ≡ (alone_by (save_work out.old) c mem.now).out) }
{
    if let Err(refusal) = range_number(mem.len(), c.in_range()) {
        return c.answer(refusal.number());
    }
    let outcome = save_sound(&c, mem, out);
    c.answer(number_of(outcome))
}
