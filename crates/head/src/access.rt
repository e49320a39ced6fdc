// Document 01, 'Numbers that an answer carries' and 'Table accesses': reads and writes of a channel's registers, as far as they need no table or TRANCONFIG alone.
ghost use Rattle.std.specs.Prelude.{◌≡◌, ◌+◌, ◌≤◌, get_or};
ghost use Rattle.rules.specs.Numbers.{number_of};
ghost use Rattle.rules.specs.Registers.{chstatus_value};
ghost use Rattle.rules.specs.Tables.{start_of};
ghost use Rattle.rules.specs.Access.{place_refusal};
ghost use Rattle.sequence.specs.Walk.{no_flags};
ghost use Rattle.head.specs.State.{headed, replied, with_flags};
ghost use Rattle.head.specs.Access.{setting_of, setting_set, read_refusal, control_of, data_place, moded, pointed, refusal_of, selected, offset};

use crate::state::{Answer, Head, Settings};
use rules::{BUFFER, Command, Refusal, Register};

// By number, as `Register::Setting` has them.
impl Settings {
    #[tactic(auto, using(laws::specs::Cases::cases), unfolding(crate::specs::Access::setting_of))]
    pub fn get(&self, n: usize) -> u8
        ensures { result ≡ setting_of self.now n }
    {
        match n {
            0 => self.framecnt,
            1 => self.refrate,
            2 => self.scll,
            3 => self.sclh,
            4 => self.mode,
            _ => self.timeout,
        }
    }

    #[tactic(auto, using(laws::specs::Cases::cases), unfolding(crate::specs::Access::setting_set))]
    pub fn set(&mut self, n: usize, v: u8)
        ensures { self.new ≡ setting_set self.old n v }
    {
        match n {
            0 => self.framecnt = v,
            1 => self.refrate = v,
            2 => self.scll = v,
            3 => self.sclh = v,
            4 => self.mode = v,
            5 => self.timeout = v,
            _ => {}
        }
    }
}

impl Head {
    // ---- reads

    #[tactic(auto, unfolding(crate::specs::Access::read_refusal))]
    pub fn read_refusal(&self, lens: &[u8; 65], reg: Register) -> Result<(), Refusal>
        requires { get_or lens.now 0 0 ≤ 64 }
        ensures { number_of result ≡ read_refusal self.now.ptrs lens.now reg }
    {
        match reg {
            Register::Slatable => rules::past_refusal(63, self.ptrs.sla),
            Register::Tranconfig => rules::past_refusal(64, self.ptrs.conf),
            Register::Data => rules::spot_refusal(rules::find_place(lens, self.ptrs.buf)),
            Register::Bytecount => rules::past_refusal(63, self.ptrs.count),
            _ => Ok(()),
        }
    }

    pub fn control(&self) -> u8
        ensures { result ≡ control_of self.now }
    {
        rules::control_value(
            self.walk.seq,
            rules::active(self.walk.phase),
            self.walk.sto,
            self.regs.tp,
            self.regs.te,
        )
    }

    // Reading CHSTATUS clears it.
    pub fn read_chstatus(&mut self) -> Answer
        ensures { headed self.new result ≡ replied (with_flags self.old no_flags) (chstatus_value self.old.flags) }
    {
        let v = rules::chstatus_value(self.flags);
        self.flags = sequence::no_flags();
        Answer::reply(v)
    }

    // ---- a write to CONTROL

    #[tactic(auto, using(laws::specs::Cases::cases), unfolding(rules::specs::Access::kept_if))]
    pub fn set_modes(&mut self, k: Command)
        ensures { self.new ≡ moded self.old k }
    {
        if !rules::active(self.walk.phase) {
            self.regs.tp = k.tp;
            self.regs.te = k.te;
        }
    }

    // TRANSEL is at most 63 by the range, which is no invariant: any head can be written down (`head_in`).
    pub fn data_place(&self, lens: &[u8; 65]) -> usize
        requires { self.now.regs.transel ≤ 63 }
        ensures { result ≡ data_place self.now lens.now }
    {
        rules::start_of(lens, self.regs.transel as usize) + self.regs.tranofs as usize
    }

    #[tactic(auto, using(laws::specs::Cases::cases), unfolding(rules::specs::Access::rewound, rules::specs::Access::pointed_at, rules::specs::Access::at_most))]
    pub fn set_pointers(&mut self, k: Command, place: usize)
        ensures { self.new ≡ pointed self.old k place }
    {
        if k.aiptrrst {
            self.ptrs.sla = 0;
            self.ptrs.conf = 0;
            self.ptrs.buf = place.min(BUFFER);
        }
        if k.bptrrst {
            self.ptrs.count = 0;
        }
    }

    // ---- writes

    fn ofs_refusal(&self, lens: &[u8; 65], v: u8) -> Result<(), Refusal>
        requires { self.now.regs.transel ≤ 63 }
        ensures { number_of result ≡ place_refusal (start_of lens.now self.now.regs.transel + v) }
    {
        rules::place_refusal(rules::start_of(lens, self.regs.transel as usize) + v as usize)
    }

    #[tactic(auto, unfolding(crate::specs::Access::refusal_of))]
    pub fn refusal(&self, lens: &[u8; 65], reg: Register, v: u8) -> Result<(), Refusal>
        requires { (self.now.regs.transel ≤ 63) × (get_or lens.now 0 0 ≤ 64) }
        ensures { number_of result ≡ refusal_of self.now lens.now reg v }
    {
        let phase = self.walk.phase;
        match reg {
            Register::Status(_) | Register::Chstatus | Register::Bytecount => {
                Err(Refusal::ReadOnly)
            }
            Register::Slatable => rules::sla_refusal(phase, self.ptrs.sla),
            Register::Tranconfig => rules::conf_refusal(phase, self.ptrs.conf, v),
            Register::Data => rules::data_refusal(phase, rules::find_place(lens, self.ptrs.buf)),
            Register::Transel => rules::sel_refusal(lens, v),
            Register::Tranofs => self.ofs_refusal(lens, v),
            Register::Setting(_) => rules::busy_refusal(phase),
            Register::Control | Register::Intmsk | Register::Preset => Ok(()),
        }
    }

    pub fn select(&mut self, lens: &[u8; 65], v: u8)
        requires { v ≤ 63 }
        ensures { self.new ≡ selected self.old lens.now v }
    {
        self.regs.transel = v;
        self.regs.tranofs = 0;
        self.ptrs.buf = rules::start_of(lens, v as usize);
    }

    pub fn offset(&mut self, lens: &[u8; 65], v: u8)
        requires { self.old.regs.transel ≤ 63 }
        ensures { self.new ≡ offset self.old lens.now v }
    {
        self.regs.tranofs = v;
        self.ptrs.buf = self.data_place(lens);
    }
}
