// Document 01, 'Out of range': what needs no table but TRANCONFIG's entry 0, the count.
ghost use Rattle.std.specs.Prelude.{◌≡◌};
ghost use Rattle.head.specs.Range.{head_in};

use crate::state::Head;

impl Head {
    #[tactic(auto, using(laws::specs::Cases::cases), unfolding(crate::specs::Range::head_in))]
    pub fn in_range(&self, count: u8) -> bool
        ensures { result ≡ head_in self.now count }
    {
        bounds::pointers_in(self.ptrs)
            && bounds::registers_in(count, self.regs.transel, self.regs.intmsk)
            && bounds::walk_in(self.walk, self.regs.te, self.settings.framecnt)
    }
}
