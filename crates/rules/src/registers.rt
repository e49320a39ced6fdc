// Document 01, 'The part as the processor sees it': where a channel's registers stand, and the bits of CONTROL, CHSTATUS and INTMSK.
#![tactic(auto, using(laws::specs::Cases::cases), unfolding(crate::specs::Registers::status_place, crate::specs::Registers::table_at, crate::specs::Registers::setting_at, crate::specs::Registers::register_at, crate::specs::Registers::register_place, crate::specs::Registers::place_of, crate::specs::Registers::weigh, crate::specs::Registers::control_value, crate::specs::Registers::chstatus_value))]

ghost use Rattle.std.specs.Prelude.{◌≡◌, ◌<◌, ◌≤◌};
ghost use Rattle.rules.specs.Registers.{status_place, table_at, setting_at, register_at, register_place, place_of};
ghost use Rattle.rules.specs.Registers.{bit_of, command_of, weigh, control_value, chstatus_value, mask_kept, active_of};
ghost use Rattle.rules.specs.Facts.{Known, KnownPlace};

use crate::state::{Flags, Phase};

// A register of a channel: STATUS n, or the one at C0h, D0h or E0h + 0 to Fh. Setting 0 to 5 are FRAMECNT, REFRATE, SCLL, SCLH, MODE and TIMEOUT:
// by number, since the six share one rule, and `register_at` counts them off.
#[derive(Clone, Copy, PartialEq, Eq)]
pub enum Register {
    Status(usize),
    Control,
    Chstatus,
    Intmsk,
    Slatable,
    Tranconfig,
    Data,
    Transel,
    Tranofs,
    Bytecount,
    Setting(usize),
    Preset,
}

// What a write to CONTROL commands: its bits.
#[derive(Clone, Copy, PartialEq, Eq)]
pub struct Command {
    pub stoseq: bool,
    pub sta: bool,
    pub sto: bool,
    pub tp: bool,
    pub te: bool,
    pub bptrrst: bool,
    pub aiptrrst: bool,
}

fn status_place(c: u8, a: u8) -> Option<Register>
    ensures { (result ≡ status_place c a) × KnownPlace result }
{
    (a / 64 == c).then_some(Register::Status((a % 64) as usize))
}

fn register_at(n: u8) -> Register
    requires { n < 16 }
    ensures { (result ≡ register_at n) × Known result }
{
    match n {
        0x0 => Register::Control,
        0x1 => Register::Chstatus,
        0x2 => Register::Intmsk,
        0x3 => Register::Slatable,
        0x4 => Register::Tranconfig,
        0x5 => Register::Data,
        0x6 => Register::Transel,
        0x7 => Register::Tranofs,
        0x8 => Register::Bytecount,
        0xF => Register::Preset,
        _ => Register::Setting(n as usize - 9),
    }
}

fn register_place(c: u8, a: u8) -> Option<Register>
    requires { c ≤ 2 }
    ensures { (result ≡ register_place c a) × KnownPlace result }
{
    (a / 16 == 12 + c).then_some(register_at(a % 16))
}

// What stands at address a for channel c: one of its registers, or none.
pub fn place_of(c: u8, a: u8) -> Option<Register>
    ensures { (result ≡ place_of c a) × KnownPlace result }
{
    if 2 < c {
        return None;
    }
    if a < 0xC0 {
        return status_place(c, a);
    }
    register_place(c, a)
}

pub fn bit(v: u8, w: u8) -> bool
    requires { 0 < w }
    ensures { result ≡ bit_of v w }
{
    v / w % 2 == 1
}

// A function and no `From<u8>`: `command_of_once` promises it as one.
pub fn command_of(v: u8) -> Command
    ensures { result ≡ command_of v }
{
    Command {
        stoseq: bit(v, 0x80),
        sta: bit(v, 0x40),
        sto: bit(v, 0x20),
        tp: bit(v, 0x10),
        te: bit(v, 0x08),
        bptrrst: bit(v, 0x04),
        aiptrrst: bit(v, 0x02),
    }
}

pub fn weight(b: bool, w: u8) -> u8
    ensures { (result ≡ weigh b w) × (result ≤ w) }
{
    if b { w } else { 0 }
}

// Bit by bit, as definition `control_value` has them.
pub fn control_value(seq: bool, sta: bool, sto: bool, tp: bool, te: bool) -> u8
    ensures { result ≡ control_value seq sta sto tp te }
{
    weight(seq, 0x80) + weight(sta, 0x40) + weight(sto, 0x20) + weight(tp, 0x10) + weight(te, 0x08)
}

pub fn chstatus_value(f: Flags) -> u8
    ensures { result ≡ chstatus_value f }
{
    weight(f.sd, 0x80)
        + weight(f.fld, 0x40)
        + weight(f.we, 0x20)
        + weight(f.re, 0x10)
        + weight(f.dae, 0x08)
        + weight(f.cle, 0x04)
        + weight(f.sse, 0x02)
        + weight(f.fe, 0x01)
}

// INTMSK's bits, by their weights (002, Table 10).
pub const SDMSK: u8 = 0x80;

pub const FLDMSK: u8 = 0x40;

pub const WEMSK: u8 = 0x20;

pub const REMSK: u8 = 0x10;

pub const FEMSK: u8 = 0x01;

// INTMSK's bits 3 to 1 are kept 0. By division, as the definition has it: `&` would need laws of its own.
pub fn mask_kept(v: u8) -> u8
    ensures { result ≡ mask_kept v }
{
    v / 16 * 16 + v % 2
}

pub fn active(p: Phase) -> bool
    ensures { result ≡ active_of p }
{
    p != Phase::Idle
}
