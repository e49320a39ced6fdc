// Document 01, 'Numbers that an answer carries': refusals of an access to a register, pointers, and the reset key.
#![tactic(auto, using(laws::specs::Cases::cases), unfolding(crate::specs::Access::busy_refusal, crate::specs::Access::past_refusal, crate::specs::Access::too_many, crate::specs::Access::conf_refusal, crate::specs::Access::sel_refusal, crate::specs::Access::place_refusal, crate::specs::Access::overrun_of, crate::specs::Access::key_after, crate::specs::Access::resets_of))]

ghost use Rattle.std.specs.Prelude.{◌≡◌, ◌≤◌, get_or};
ghost use Rattle.rules.specs.Access.{busy_refusal, locked_of, past_refusal, too_many, sla_refusal, conf_refusal, place_refusal, sel_refusal, spot_of, spot_refusal, data_refusal};
ghost use Rattle.rules.specs.Access.{overrun_of, preset_of, key_after, resets_of};
ghost use Rattle.rules.specs.Facts.{Configured};
ghost use Rattle.rules.specs.Numbers.{number_of};

use crate::numbers::{BUFFER, Refusal};
use crate::registers::{Register, active};
use crate::state::Phase;
use crate::tables::{configured, start_of};

// ---- nos. 3, 4 and 6

pub fn busy_refusal(p: Phase) -> Result<(), Refusal>
    ensures { number_of result ≡ busy_refusal p }
{
    if active(p) {
        Err(Refusal::Locked)
    } else {
        Ok(())
    }
}

fn locked(p: Phase, at: usize) -> bool
    ensures { result ≡ locked_of p at }
{
    match p {
        Phase::Idle => false,
        Phase::Waiting => 0 < at,
        _ => true,
    }
}

pub fn past_refusal(last: usize, at: usize) -> Result<(), Refusal>
    ensures { number_of result ≡ past_refusal last at }
{
    if last < at {
        Err(Refusal::PastTable)
    } else {
        Ok(())
    }
}

fn too_many(at: usize, v: u8) -> bool
    ensures { result ≡ too_many at v }
{
    at == 0 && 64 < v
}

#[tactic(auto, using(crate::proofs::Laws::Numbers::number_of_and), unfolding(crate::specs::Access::busy_refusal, crate::specs::Access::sla_refusal))]
pub fn sla_refusal(p: Phase, at: usize) -> Result<(), Refusal>
    ensures { number_of result ≡ sla_refusal p at }
{
    busy_refusal(p).and(past_refusal(63, at))
}

pub fn conf_refusal(p: Phase, at: usize, v: u8) -> Result<(), Refusal>
    ensures { number_of result ≡ conf_refusal p at v }
{
    if locked(p, at) {
        Err(Refusal::Locked)
    } else if 64 < at {
        Err(Refusal::PastTable)
    } else if too_many(at, v) {
        Err(Refusal::ManyTransactions)
    } else {
        Ok(())
    }
}

// ---- no. 5: the buffer boundary

pub fn place_refusal(at: usize) -> Result<(), Refusal>
    ensures { number_of result ≡ place_refusal at }
{
    if at < BUFFER {
        Ok(())
    } else {
        Err(Refusal::PastBuffer)
    }
}

pub fn sel_refusal(lens: &[u8; 65], v: u8) -> Result<(), Refusal>
    ensures { number_of result ≡ sel_refusal lens.now v }
{
    if 63 < v {
        return Err(Refusal::PastBuffer);
    }
    place_refusal(start_of(lens, v as usize))
}

// Finds the place of the buffer at which DATA's pointer stands, if TRANCONFIG configures it. The place and no bool: that it is `Configured` is promised.
pub fn find_place(lens: &[u8; 65], at: usize) -> Option<usize>
    requires { get_or lens.now 0 0 ≤ 64 }
    ensures { (result ≡ spot_of lens.now at) × Configured lens.now result }
{
    (at < BUFFER && configured(lens, at)).then_some(at)
}

pub fn spot_refusal(s: Option<usize>) -> Result<(), Refusal>
    ensures { number_of result ≡ spot_refusal s }
{
    match s {
        Some(_) => Ok(()),
        None => Err(Refusal::PastBuffer),
    }
}

#[tactic(auto, using(crate::proofs::Laws::Numbers::number_of_and), unfolding(crate::specs::Access::busy_refusal, crate::specs::Access::data_refusal))]
pub fn data_refusal(p: Phase, s: Option<usize>) -> Result<(), Refusal>
    ensures { number_of result ≡ data_refusal p s }
{
    busy_refusal(p).and(spot_refusal(s))
}

// ---- AIPTRRST past the buffer

pub fn overrun(aiptrrst: bool, place: usize) -> bool
    ensures { result ≡ overrun_of aiptrrst place }
{
    aiptrrst && BUFFER <= place
}

// ---- the key of PRESET

pub fn is_preset(reg: Register) -> bool
    ensures { result ≡ preset_of reg }
{
    reg == Register::Preset
}

// Whether a write, at a reset register or not, leaves its A5h.
pub fn key_after(preset: bool, v: u8) -> bool
    ensures { result ≡ key_after preset v }
{
    preset && v == 0xA5
}

// Whether a write, at a reset register or not, resets.
pub fn resets(preset: bool, v: u8, key: bool) -> bool
    ensures { result ≡ resets_of preset v key }
{
    preset && key && v == 0x5A
}
