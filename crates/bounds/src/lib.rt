// Document 01, 'Out of range': its clauses over the parts of a channel's record. Each table by itself, since this crate stands below `Channel`; TE and FRAMECNT side by side, since they are of two structs (Regs, Settings).
#![tactic(auto, using(laws::specs::Cases::cases), unfolding(crate::specs::Range::pointers_in, crate::specs::Range::registers_in, crate::specs::Range::counting_of, crate::specs::Range::ended_in, crate::specs::Range::blank_of, crate::specs::Range::recorded_in, crate::specs::Range::walk_in, crate::specs::Range::standing, crate::specs::Range::counted_in, crate::specs::Range::counts_in, crate::specs::Range::frame_at, crate::specs::Range::frame_in, crate::specs::Range::kinds_in))]

ghost use Rattle.std.specs.Prelude.{◌≡◌, ◌<◌, ◌≤◌, get_or};
ghost use Rattle.bounds.specs.Range.{pointers_in, registers_in, counting_of, ended_in, blank_of, recorded_in, walk_in, standing, counted_in, clear_after, counts_in, frame_at, frame_in, kinds_in};

use rules::{BUFFER, Kind, Phase, Ptrs, Walk, active, byte, fits, is_fm, reads, skipped};

pub fn pointers_in(p: Ptrs) -> bool
    ensures { result ≡ pointers_in p }
{
    p.sla <= 64 && p.count <= 64 && p.conf <= 65 && p.buf <= BUFFER
}

// Three values, once each: a struct would be no plainer.
pub fn registers_in(count: u8, transel: u8, intmsk: u8) -> bool
    ensures { result ≡ registers_in count transel intmsk }
{
    count <= 64 && transel <= 63 && intmsk / 2 % 8 == 0
}

fn counting(p: Phase, te: bool, framecnt: u8) -> bool
    ensures { result ≡ counting_of p te framecnt }
{
    active(p) && !te && 0 < framecnt
}

fn ended_in(p: Phase, te: bool, framecnt: u8, ended: u8) -> bool
    ensures { result ≡ ended_in p te framecnt ended }
{
    if counting(p, te, framecnt) {
        ended < framecnt
    } else {
        ended == 0
    }
}

fn blank(w: Walk) -> bool
    ensures { result ≡ blank_of w }
{
    !(w.sto || w.seq || w.fe || w.error)
}

fn recorded_in(p: Phase, w: Walk) -> bool
    ensures { result ≡ recorded_in p w }
{
    match p {
        Phase::Idle | Phase::Waiting => blank(w),
        Phase::Stopping => true,
        _ => !w.error,
    }
}

pub fn walk_in(w: Walk, te: bool, framecnt: u8) -> bool
    ensures { result ≡ walk_in w te framecnt }
{
    ended_in(w.phase, te, framecnt, w.ended) && recorded_in(w.phase, w)
}

// Whether a frame that fits has transaction n, and does not skip it.
fn stands(kind: Kind, n: usize, sla: &[u8; 64], lens: &[u8; 65]) -> bool
    requires { get_or lens.now 0 0 ≤ 64 }
    ensures { result ≡ standing kind n sla.now lens.now }
{
    fits(lens) && n < byte(lens[0]) && !skipped(kind, sla[n], lens[n + 1])
}

fn counted_in(p: Phase, sla: u8, len: u8, count: u8) -> bool
    ensures { result ≡ counted_in p sla len count }
{
    match p {
        Phase::Address(_) => count == 0,
        Phase::Sending(_) => !reads(sla) && count < len,
        Phase::Receiving(_) => reads(sla) && count < len,
        _ => true,
    }
}

// Whether every entry from `from` to 63 is 0.
fn clear_after(counts: &[u8; 64], from: usize) -> bool
    ensures { result ≡ clear_after counts.now from }
{
    counts.iter().skip(from).all(|&count| count == 0)
}

fn counts_in(p: Phase, n: usize, sla: &[u8; 64], lens: &[u8; 65], counts: &[u8; 64]) -> bool
    requires { n < 64 }
    ensures { result ≡ counts_in p n sla.now lens.now counts.now }
{
    counted_in(p, sla[n], lens[n + 1], counts[n]) && clear_after(counts, n + 1)
}

fn frame_at(
    kind: Kind,
    p: Phase,
    n: usize,
    sla: &[u8; 64],
    lens: &[u8; 65],
    counts: &[u8; 64],
) -> bool
    requires { get_or lens.now 0 0 ≤ 64 }
    ensures { result ≡ frame_at kind p n sla.now lens.now counts.now }
{
    stands(kind, n, sla, lens) && counts_in(p, n, sla, lens, counts)
}

pub fn frame_in(kind: Kind, p: Phase, sla: &[u8; 64], lens: &[u8; 65], counts: &[u8; 64]) -> bool
    requires { get_or lens.now 0 0 ≤ 64 }
    ensures { result ≡ frame_in kind p sla.now lens.now counts.now }
{
    match p {
        Phase::Address(n) | Phase::Sending(n) | Phase::Receiving(n) => {
            frame_at(kind, p, byte(n), sla, lens, counts)
        }
        _ => true,
    }
}

// Whether the kinds of the channels are those of one part. One by one, as definition `kinds_in` has them.
pub fn kinds_in(first: Kind, second: Kind, third: Kind) -> bool
    ensures { result ≡ kinds_in first second third }
{
    is_fm(first) && second == third
}
