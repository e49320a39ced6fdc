// Document 01, 'Out of range': whether a channel's record is in range.
ghost use Rattle.std.specs.Prelude.{◌≡◌};
ghost use Rattle.channel.specs.Range.{in_range};

use crate::state::Channel;

impl Channel {
    #[tactic(auto, using(laws::specs::Cases::cases, crate::proofs::Laws::Step::ranged), unfolding(crate::specs::Range::in_range))]
    pub fn in_range(&self) -> bool
        ensures { result ≡ in_range self.now }
    {
        self.head.in_range(self.tranconfig[0])
            && bounds::frame_in(
                self.head.kind(),
                self.head.walk.phase,
                &self.slatable,
                &self.tranconfig,
                &self.bytecount,
            )
    }
}
