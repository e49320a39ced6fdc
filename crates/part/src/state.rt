// The record of the part, what a step answers, and whether the part is in range.
ghost use Rattle.std.specs.Prelude.{◌≡◌};
ghost use Rattle.part.specs.State.{fresh_part, refused_part, device_of, forgotten};
ghost use Rattle.part.specs.Step.{channels_in, own_kinds, part_in, accepts};

use bounds::kinds_in;
use channel::Channel;
use interrupt::mask_in;
use rules::{Device, Kind, MEMORY, Straps, other_kind};
use steps::PartAnswer;

// The part: its channels, BE, CTRLINTMSK, and whether A5h was written to CTRLPRESET.
#[derive(Clone, Copy, PartialEq, Eq)]
pub struct Part {
    pub channels: [Channel; 3],
    pub be: bool,
    pub mask: u8,
    pub key: bool,
}

// What a step gives back: the part, and its answer.
#[derive(Clone, Copy, PartialEq, Eq)]
pub struct PartStepped {
    pub part: Part,
    pub answer: PartAnswer,
}

impl Part {
    // The part as a reset leaves it.
    pub fn new(d: Device) -> Self
        ensures { result ≡ fresh_part d }
    {
        let first = Channel::new(Straps { kind: Kind::Fm });
        let other = Channel::new(Straps {
            kind: other_kind(d),
        });
        Part {
            channels: [first, other, other],
            be: false,
            mask: 0,
            key: false,
        }
    }

    // The part with an answer's number and nothing else. Any number, 0 too, as the definition `refused_part` has it.
    pub fn answer(self, number: u8) -> PartStepped
        ensures { result ≡ refused_part self number }
    {
        PartStepped {
            part: self,
            answer: PartAnswer::numbered(number),
        }
    }

    // The part that the hardware reset chose.
    pub(crate) fn device(&self) -> Device
        ensures { result ≡ device_of self.now }
    {
        rules::device_by(self.channels[1].head.kind())
    }

    // Every pending A5h is forgotten but number c: channel c's, or for c 3 CTRLPRESET's (the definition `forgotten` numbers them so).
    pub(crate) fn forget_but(&mut self, c: u8)
        ensures { self.new ≡ forgotten self.old c }
    {
        for (i, channel) in self.channels.iter_mut().enumerate() {
            if i != c as usize {
                channel.head.key = false;
            }
        }
        if c != 3 {
            self.key = false;
        }
    }

    // Whether the channels' kinds are those of one part.
    fn own_kinds(&self) -> bool
        ensures { result ≡ own_kinds self.now }
    {
        kinds_in(
            self.channels[0].head.kind(),
            self.channels[1].head.kind(),
            self.channels[2].head.kind(),
        )
    }

    fn channels_in(&self) -> bool
        ensures { result ≡ channels_in self.now.channels }
    {
        self.channels.iter().all(|c| c.in_range())
    }

    // Whether the part is in range: each channel, CTRLINTMSK, and the kinds.
    #[tactic(auto, using(laws::specs::Cases::cases), unfolding(crate::specs::Step::part_in))]
    pub fn in_range(&self) -> bool
        ensures { result ≡ part_in self.now }
    {
        self.channels_in() && mask_in(self.mask) && self.own_kinds()
    }

    // Whether no. 9 does not refuse the part with a memory of this length. A bool and no `Refusal`, as the definition `accepts` is one.
    #[tactic(auto, using(laws::specs::Cases::cases), unfolding(crate::specs::Step::accepts))]
    pub fn accepts_len(&self, len: usize) -> bool
        ensures { result ≡ accepts self.now len }
    {
        len == MEMORY && self.in_range()
    }
}
