// Document 01, 'The part as the processor sees it': what CTRLINTMSK keeps, pending causes, and the interrupt; and BE, which no. 5 sets.
#![tactic(auto, using(laws::specs::Cases::cases), unfolding(crate::specs::Interrupt::on_fm, crate::specs::Interrupt::be_after))]

ghost use Rattle.std.specs.Prelude.{◌≡◌, ◌≤◌, eqb};
ghost use Rattle.rules.specs.Registers.{weigh, chstatus_value};
ghost use Rattle.interrupt.specs.Interrupt.{ctrl_kept, ◌unless◌, on_fm, some_of, causes_of, pending_of, pulls_of, pulled_by, be_after, mask_in};

use rules::{FEMSK, FLDMSK, Flags, Kind, PAST_BUFFER, REMSK, SDMSK, WEMSK, bit, is_fm};

// CTRLINTMSK as it is kept after v is written. By division, as the definition has it: `&` would need laws of its own.
pub fn ctrl_kept(v: u8) -> u8
    ensures { result ≡ ctrl_kept v }
{
    v / 128 * 128 + v % 8
}

// CTRLINTMSK's bits, by their weights (002, Table 31).
const BEMSK: u8 = 0x80;

const CH2MSK: u8 = 0x04;

const CH1MSK: u8 = 0x02;

const CH0MSK: u8 = 0x01;

// ---- causes, a row each: the bit that is set beside the bit that masks it

fn unless(cause: bool, masked: bool) -> bool
    ensures { result ≡ cause unless masked }
{
    cause && !masked
}

// In place of a mask bit: DAE, CLE and SSE can't be masked.
const NEVER: bool = false;

// A mask bit that a UFm channel doesn't have.
fn on_fm(kind: Kind, masked: bool) -> bool
    ensures { result ≡ on_fm kind masked }
{
    if is_fm(kind) { masked } else { NEVER }
}

// Whether some row holds.
fn some(rows: &[bool]) -> bool
    ensures { result ≡ some_of rows.now }
{
    rows.iter().any(|&row| row)
}

// CHSTATUS beside INTMSK, bit 7 to bit 0.
#[tactic(auto, using(crate::proofs::Laws::Interrupt::rows), unfolding(crate::specs::Interrupt::causes_of))]
fn causes(kind: Kind, f: Flags, mask: u8) -> [bool; 8]
    ensures { result ≡ causes_of kind f mask }
{
    [
        unless(f.sd, bit(mask, SDMSK)), // 7
        unless(f.fld, bit(mask, FLDMSK)), // 6
        unless(f.we, on_fm(kind, bit(mask, WEMSK))), // 5
        unless(f.re, on_fm(kind, bit(mask, REMSK))), // 4
        unless(f.dae, NEVER), // 3
        unless(f.cle, NEVER), // 2
        unless(f.sse, NEVER), // 1
        unless(f.fe, bit(mask, FEMSK)), // 0
    ]
}

// A flag as a number: its bound keeps the word of `calm` in range.
fn number(flag: bool) -> u64
    ensures { (result ≡ weigh flag 1) × (result ≤ 1) }
{
    u64::from(flag)
}

// Whether CHSTATUS is 00h: no cause is set, masked or not. The flags stand side by side, so all eight are looked at as one word, which is quicker than one by one.
fn calm(f: Flags) -> bool
    ensures { result ≡ eqb (chstatus_value f) 0 }
{
    let low = number(f.sd)
        + number(f.fld) * 0x100
        + number(f.we) * 0x10000
        + number(f.re) * 0x1000000;
    let high = number(f.dae)
        + number(f.cle) * 0x100
        + number(f.sse) * 0x10000
        + number(f.fe) * 0x1000000;
    low + high * 0x100000000 == 0
}

// Whether a channel of this kind with these flags and this INTMSK is pending. Most often none is set, and that is told sooner.
pub fn pending(kind: Kind, f: Flags, mask: u8) -> bool
    ensures { result ≡ pending_of kind f mask }
{
    !calm(f) && some(&causes(kind, f, mask))
}

// BE and the channels that are pending beside CTRLINTMSK, bit 7 and bits 2 to 0. The three one by one, as definition `pulled_by` has them.
#[tactic(auto, using(crate::proofs::Laws::Interrupt::rows), unfolding(crate::specs::Interrupt::pulls_of))]
fn pulls(be: bool, mask: u8, ch0: bool, ch1: bool, ch2: bool) -> [bool; 4]
    ensures { result ≡ pulls_of be mask ch0 ch1 ch2 }
{
    [
        unless(be, bit(mask, BEMSK)), // 7
        unless(ch2, bit(mask, CH2MSK)), // 2
        unless(ch1, bit(mask, CH1MSK)), // 1
        unless(ch0, bit(mask, CH0MSK)), // 0
    ]
}

// Whether INT is pulled, by BE, CTRLINTMSK and the channels that are pending.
#[tactic(auto, using(crate::proofs::Laws::Interrupt::rows), unfolding(crate::specs::Interrupt::pulled_by))]
pub fn pulled(be: bool, mask: u8, ch0: bool, ch1: bool, ch2: bool) -> bool
    ensures { result ≡ pulled_by be mask ch0 ch1 ch2 }
{
    some(&pulls(be, mask, ch0, ch1, ch2))
}

// BE after an answer with this number.
pub fn be_after(be: bool, number: u8) -> bool
    ensures { result ≡ be_after be number }
{
    be || number == PAST_BUFFER
}

// Whether no bit of CTRLINTMSK that is kept 0 is set.
pub fn mask_in(mask: u8) -> bool
    ensures { result ≡ mask_in mask }
{
    mask / 8 % 16 == 0
}
