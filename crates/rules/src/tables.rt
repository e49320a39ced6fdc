// What the tables say: starts, skipped transactions, and the first that is not skipped. Each table by itself, since this crate stands below `Channel`, whose
// fields they are ('SLATABLE (64 bytes), TRANCONFIG (65)').
ghost use Rattle.std.specs.Prelude.{◌≡◌, ◌*◌, ◌<◌, ◌≤◌, get_or, length, replicate};
ghost use Rattle.rules.specs.Facts.{Skips};
ghost use Rattle.rules.specs.Tables.{start_of, fitting, configured_at, reads_of, longest_skipped, skipped_of, first_sent, marked};

use crate::numbers::{BUFFER, DONE_STATUS};
use crate::parts::{Kind, is_fm};

// A byte as an index: the number, and that it is below 256, which a caller's arithmetic wants.
pub fn byte(x: u8) -> usize
    ensures { (result ≡ x) × (result < 256) }
{
    x as usize
}

// Where transaction v starts in the buffer: the sum of the v lengths before it. A loop, whose invariant has the bound too: `sum()` promises none.
pub fn start_of(lens: &[u8; 65], v: usize) -> usize
    requires { v ≤ 64 }
    ensures { (result ≡ start_of lens.now v) × (result ≤ 255 * v) }
{
    let mut sum = 0;
    for &len in &lens[1..=v] {
        sum += byte(len);
    }
    sum
}

// Whether the lengths of the first count transactions fit the buffer.
#[tactic(auto, unfolding(crate::specs::Tables::fitting))]
pub fn fits(lens: &[u8; 65]) -> bool
    requires { get_or lens.now 0 0 ≤ 64 }
    ensures { result ≡ fitting lens.now }
{
    start_of(lens, byte(lens[0])) <= BUFFER
}

// Whether a place lies below the sum of the first count lengths, which are taken from it one by one: none is looked at behind the one that tells, which is faster (docs/SPEED.md).
pub(crate) fn configured(lens: &[u8; 65], at: usize) -> bool
    requires { get_or lens.now 0 0 ≤ 64 }
    ensures { result ≡ configured_at lens.now at }
{
    let count = byte(lens[0]);
    let mut left = at;
    for &len in &lens[1..=count] {
        let len = byte(len);
        if left < len {
            return true;
        }
        left -= len;
    }
    false
}

pub fn reads(sla: u8) -> bool
    ensures { result ≡ reads_of sla }
{
    sla % 2 == 1
}

// The longest read that is skipped: none but one of length 0, and of a UFm channel any.
#[tactic(auto, using(laws::specs::Cases::cases), unfolding(crate::specs::Tables::longest_skipped))]
fn longest_skipped(kind: Kind) -> u8
    ensures { result ≡ longest_skipped kind }
{
    if is_fm(kind) { 0 } else { 255 }
}

// Whether a transaction is skipped as done, on a channel that skips reads up to that length: so a loop asks for the kind once.
#[tactic(auto, using(laws::specs::Cases::cases, crate::proofs::Laws::Tables::skips_of))]
fn skips(most: u8, sla: u8, len: u8) -> bool
    ensures { Skips most sla len result }
{
    reads(sla) && len <= most
}

pub fn skipped(kind: Kind, sla: u8, len: u8) -> bool
    ensures { result ≡ skipped_of kind sla len }
{
    skips(longest_skipped(kind), sla, len)
}

// The first transaction from `from` that is not skipped, or the count: 'a loop that breaks with the transaction or the count'.
pub fn first_sent(kind: Kind, sla: &[u8; 64], lens: &[u8; 65], from: usize, count: usize) -> usize
    requires { (from ≤ count) × (count ≤ 64) }
    ensures { (result ≡ first_sent kind sla.now lens.now from count) × (from ≤ result) × (result ≤ count) }
{
    let most = longest_skipped(kind);
    let mut i = from;
    loop {
        if count <= i {
            break count;
        }
        if !skips(most, sla[i], lens[i + 1]) {
            break i;
        }
        i += 1;
    }
}

// STATUS 02h at each place from `from` to before `to`.
pub fn mark(status: &mut [u8; 64], from: usize, to: usize)
    requires { (from ≤ to) × (to ≤ 64) }
    ensures { status.new ≡ marked status.old from to }
{
    status[from..to].fill(DONE_STATUS);
}

// Zeroes the bytes. A function, since must-fail/reset_leaves_bytes is refused by its promise.
pub fn wipe(mem: &mut [u8])
    ensures { mem.new ≡ replicate (length mem.old) 0 }
{
    mem.fill(0);
}
