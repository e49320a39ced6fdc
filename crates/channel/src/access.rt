// Document 01, 'Numbers that an answer carries' and 'Table accesses': reads and writes of a channel's registers, CONTROL, and the reset key.
ghost use Rattle.std.specs.Prelude.{◌≡◌, ◌+◌, ◌<◌, ◌≤◌, length, get_or, set};
ghost use Rattle.rules.specs.Numbers.{buffer_size};
ghost use Rattle.rules.specs.Facts.{Known, KnownPlace};
ghost use Rattle.head.specs.State.{fresh_head, plain, answer_by};
ghost use Rattle.head.specs.Access.{read_refusal, refusal_of};
ghost use Rattle.channel.specs.State.{fresh, zeros, leaving, on, stepped};
ghost use Rattle.channel.specs.Access.{read_by, asked, controlled, written_by};
ghost use Rattle.channel.specs.Step.{write_at, read_at};
ghost use Rattle.channel.specs.Facts.{Accepted};

use crate::state::Channel;
use head::Answer;
use rules::{Command, Refusal, Register};
use sequence::{Ask, Ending};

// ---- an access at a pointer, which it moves by one. The pointers are the head's and the tables the channel's, so each is lent by itself

fn take(at: &mut usize, table: &[u8]) -> u8
    requires { at.old < length table.now }
    ensures { (result ≡ get_or table.now at.old 0) × (at.new ≡ at.old + 1) }
{
    let v = table[*at];
    *at += 1;
    v
}

fn put(at: &mut usize, table: &mut [u8], v: u8)
    requires { at.old < length table.old }
    ensures { (table.new ≡ set table.old at.old v) × (at.new ≡ at.old + 1) }
{
    table[*at] = v;
    *at += 1;
}

impl Channel {
    // ---- reads

    #[tactic(auto, using(crate::proofs::Laws::Access::reads), unfolding(crate::specs::Access::read_by))]
    fn read_by(&mut self, mem: &[u8], reg: Register) -> Answer
        requires { Known reg × (read_refusal self.old.head.ptrs self.old.tranconfig reg ≡ 0) × (length mem.now ≡ buffer_size) }
        ensures { stepped self.new result ≡ read_by self.old mem.now reg }
    {
        let v = match reg {
            Register::Status(n) => self.status[n],
            Register::Control => self.head.control(),
            Register::Chstatus => return self.head.read_chstatus(),
            Register::Intmsk => self.head.regs.intmsk,
            Register::Slatable => take(&mut self.head.ptrs.sla, &self.slatable),
            Register::Tranconfig => take(&mut self.head.ptrs.conf, &self.tranconfig),
            Register::Data => take(&mut self.head.ptrs.buf, mem),
            Register::Transel => self.head.regs.transel,
            Register::Tranofs => self.head.regs.tranofs,
            Register::Bytecount => take(&mut self.head.ptrs.count, &self.bytecount),
            Register::Setting(n) => self.head.settings.get(n),
            Register::Preset => 0,
        };
        Answer::reply(v)
    }

    // A read at a place.
    pub(crate) fn read(&mut self, mem: &[u8], place: Option<Register>) -> Result<Answer, Refusal>
        requires { Accepted self.old mem.now × KnownPlace place }
        ensures { leaving mem.now (stepped self.new (answer_by result)) ≡ read_at self.old mem.now place }
    {
        let Some(reg) = place else {
            return Err(Refusal::Nowhere);
        };
        self.head.read_refusal(&self.tranconfig, reg)?;
        Ok(self.read_by(mem, reg))
    }

    // ---- a write to CONTROL

    #[tactic(auto, unfolding(crate::specs::Access::asked))]
    fn ask(&mut self, a: Ask) -> Answer
        requires { get_or self.old.tranconfig 0 0 ≤ 64 }
        ensures { stepped self.new result ≡ asked self.old a }
    {
        match a {
            Ask::Nothing => {}
            Ask::Overrun => return Answer::refused(Refusal::PastBuffer),
            Ask::Begin => return self.begin(),
            Ask::Wait => self.head.walk = sequence::waiting_walk(0),
            Ask::Sto => self.head.walk.sto = true,
            Ask::Seq => self.head.walk.seq = true,
            Ask::Leave => self.head.end_by(Ending::Sd),
        }
        Answer::done()
    }

    #[tactic(auto, unfolding(crate::specs::Access::controlled))]
    fn control(&mut self, k: Command) -> Answer
        requires { (self.old.head.regs.transel ≤ 63) × (get_or self.old.tranconfig 0 0 ≤ 64) }
        ensures { stepped self.new result ≡ controlled self.old k }
    {
        let p = self.head.walk.phase;
        let place = self.head.data_place(&self.tranconfig);
        let over = rules::overrun(k.aiptrrst, place);
        self.head.set_modes(k);
        self.head.set_pointers(k, place);
        self.ask(sequence::ask_of(p, k, self.head.regs.te, over))
    }

    // ---- writes

    #[tactic(auto, using(crate::proofs::Laws::Access::writes), unfolding(crate::specs::Access::written_by))]
    fn write_by(&mut self, mem: &mut [u8], reg: Register, v: u8) -> Answer
        requires { Accepted self.old mem.old × Known reg × (refusal_of self.old.head self.old.tranconfig reg v ≡ 0) }
        ensures { leaving mem.new (stepped self.new result) ≡ written_by self.old mem.old reg v }
    {
        match reg {
            Register::Control => return self.control(rules::command_of(v)),
            Register::Intmsk => self.head.regs.intmsk = rules::mask_kept(v),
            Register::Slatable => put(&mut self.head.ptrs.sla, &mut self.slatable, v),
            Register::Tranconfig => put(&mut self.head.ptrs.conf, &mut self.tranconfig, v),
            Register::Data => put(&mut self.head.ptrs.buf, mem, v),
            Register::Transel => self.head.select(&self.tranconfig, v),
            Register::Tranofs => self.head.offset(&self.tranconfig, v),
            Register::Setting(n) => self.head.settings.set(n, v),
            Register::Status(_) | Register::Chstatus | Register::Bytecount | Register::Preset => {}
        }
        Answer::done()
    }

    // The channel and its bytes as a reset leaves them. What the hardware reset chose stays.
    fn reset(&mut self, mem: &mut [u8]) -> Answer
        requires { length mem.old ≡ buffer_size }
        ensures { leaving mem.new (stepped self.new result) ≡ leaving zeros (on (fresh self.old.head.straps) (plain (fresh_head self.old.head.straps))) }
    {
        rules::wipe(mem);
        *self = Channel::new(self.head.straps);
        Answer::done()
    }

    // A write at a place: the reset by the key, or the write, after which the key is A5h at PRESET or none.
    pub(crate) fn write(
        &mut self,
        mem: &mut [u8],
        place: Option<Register>,
        v: u8,
    ) -> Result<Answer, Refusal>
        requires { Accepted self.old mem.old × KnownPlace place }
        ensures { leaving mem.new (stepped self.new (answer_by result)) ≡ write_at self.old mem.old place v }
    {
        let Some(reg) = place else {
            return Err(Refusal::Nowhere);
        };
        let preset = rules::is_preset(reg);
        if rules::resets(preset, v, self.head.key) {
            return Ok(self.reset(mem));
        }
        self.head.key = rules::key_after(preset, v);
        self.head.refusal(&self.tranconfig, reg, v)?;
        Ok(self.write_by(mem, reg, v))
    }
}
