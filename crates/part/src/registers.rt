// Document 01, 'The part as the processor sees it': CTRLSTATUS, the part's interrupt, and the reads and writes at F0h to FFh.
ghost use Rattle.std.specs.Prelude.{◌≡◌, ◌<◌, length};
ghost use Rattle.rules.specs.Numbers.{memory_size};
ghost use Rattle.part.specs.State.{fresh_part, wiped, plain_part, given};
ghost use Rattle.part.specs.Registers.{pending_at, active_at, interrupt_of, ctrlstatus_of, ctrl_read, ctrl_written, ctrl_put, ctrl_store};

use crate::state::Part;
use interrupt::{ctrl_kept, pending, pulled};
use rules::{Device, Refusal, weight};
use steps::{Ctrl, PartAnswer, is_ctrlpreset};

impl Part {
    // Whether channel c is pending. By its number, as the definitions `pending_at` and `active_at` take it.
    fn pending_at(&self, c: usize) -> bool
        requires { c < 3 }
        ensures { result ≡ pending_at self.now c }
    {
        let h = self.channels[c].head;
        pending(h.kind(), h.flags, h.regs.intmsk)
    }

    // Whether channel c is active.
    fn active_at(&self, c: usize) -> bool
        requires { c < 3 }
        ensures { result ≡ active_at self.now c }
    {
        rules::active(self.channels[c].head.walk.phase)
    }

    // Whether INT is pulled.
    #[tactic(auto, unfolding(crate::specs::Registers::interrupt_of))]
    pub fn interrupt(&self) -> bool
        ensures { result ≡ interrupt_of self.now }
    {
        pulled(
            self.be,
            self.mask,
            self.pending_at(0),
            self.pending_at(1),
            self.pending_at(2),
        )
    }

    #[tactic(auto, unfolding(crate::specs::Registers::ctrlstatus_of))]
    fn ctrlstatus(&self) -> u8
        ensures { result ≡ ctrlstatus_of self.now }
    {
        weight(self.be, 0x80)
            + weight(self.active_at(2), 0x20)
            + weight(self.active_at(1), 0x10)
            + weight(self.active_at(0), 0x08)
            + weight(self.pending_at(2), 0x04)
            + weight(self.pending_at(1), 0x02)
            + weight(self.pending_at(0), 0x01)
    }

    #[tactic(auto, unfolding(crate::specs::Registers::ctrl_read))]
    fn read_ctrlstatus(&mut self) -> PartAnswer
        ensures { given self.new result ≡ ctrl_read self.old Ctrl.Ctrlstatus }
    {
        let status = self.ctrlstatus();
        self.be = false;
        PartAnswer::reply(status)
    }

    // A read at F0h to FFh.
    #[tactic(auto, unfolding(crate::specs::Registers::ctrl_read))]
    pub(crate) fn read_ctrl(&mut self, reg: Ctrl) -> PartAnswer
        ensures { given self.new result ≡ ctrl_read self.old reg }
    {
        match reg {
            Ctrl::Ctrlstatus => self.read_ctrlstatus(),
            Ctrl::Ctrlintmsk => PartAnswer::reply(self.mask),
            Ctrl::DeviceId => PartAnswer::reply(rules::device_id(self.device())),
            Ctrl::Reserved | Ctrl::Ctrlpreset | Ctrl::Ctrlrdy => PartAnswer::reply(0x00),
            Ctrl::Nothing => PartAnswer::refused(Refusal::Nowhere),
        }
    }

    #[tactic(auto, unfolding(crate::specs::Registers::ctrl_written))]
    fn write_ctrl(&mut self, reg: Ctrl, v: u8) -> PartAnswer
        ensures { given self.new result ≡ ctrl_written self.old reg v }
    {
        match reg {
            Ctrl::Ctrlintmsk => {
                self.mask = ctrl_kept(v);
                PartAnswer::done()
            }
            Ctrl::Ctrlpreset => PartAnswer::done(),
            Ctrl::Nothing => PartAnswer::refused(Refusal::Nowhere),
            Ctrl::Ctrlstatus | Ctrl::Reserved | Ctrl::DeviceId | Ctrl::Ctrlrdy =>
                PartAnswer::refused(Refusal::ReadOnly),
        }
    }

    // A write at F0h to FFh.
    #[tactic(auto, using(laws::specs::Cases::cases), unfolding(crate::specs::Registers::ctrl_put, crate::specs::Registers::ctrl_store))]
    pub(crate) fn put_ctrl(&mut self, mem: &mut [u8], reg: Ctrl, v: u8) -> PartAnswer
        requires { length mem.old ≡ memory_size }
        ensures { (given self.new result ≡ ctrl_put self.old reg v) × (mem.new ≡ ctrl_store self.old mem.old reg v) }
    {
        let preset = is_ctrlpreset(reg);
        if rules::resets(preset, v, self.key) {
            return self.reset(mem, self.device());
        }
        self.key = rules::key_after(preset, v);
        self.write_ctrl(reg, v)
    }

    // The reset of the whole part, with every byte.
    #[tactic(auto, unfolding(crate::specs::State::wiped))]
    pub(crate) fn reset(&mut self, mem: &mut [u8], d: Device) -> PartAnswer
        requires { length mem.old ≡ memory_size }
        ensures { (given self.new result ≡ plain_part (fresh_part d)) × (mem.new ≡ wiped) }
    {
        rules::wipe(mem);
        *self = Part::new(d);
        PartAnswer::done()
    }
}
