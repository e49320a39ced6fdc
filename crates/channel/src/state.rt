// The record of a channel, and what a step gives back.
ghost use Rattle.std.specs.Prelude.{◌≡◌};
ghost use Rattle.head.specs.State.{refused};
ghost use Rattle.channel.specs.State.{fresh, on};

use head::{Answer, Head};
use rules::Straps;

// A channel: its head, and its tables, statuses and counts.
// Each table is an array, and there is no array of transactions: document 01's 'SLATABLE (64 bytes), TRANCONFIG (65)'.
#[derive(Clone, Copy, PartialEq, Eq)]
pub struct Channel {
    pub slatable: [u8; 64],
    pub head: Head,
    pub status: [u8; 64],
    pub bytecount: [u8; 64],
    pub tranconfig: [u8; 65],
}

// What a step gives back: the channel, and its answer.
#[derive(Clone, Copy, PartialEq, Eq)]
pub struct Stepped {
    pub channel: Channel,
    pub answer: Answer,
}

impl Channel {
    // The channel as a reset leaves it.
    pub fn new(straps: Straps) -> Self
        ensures { result ≡ fresh straps }
    {
        Channel {
            slatable: [0; 64],
            head: Head::new(straps),
            status: [0; 64],
            bytecount: [0; 64],
            tranconfig: [0; 65],
        }
    }

    // The record with an answer's number and nothing else. Any number, 0 too, as the definition `refused` has it; `Part::answer` has another record.
    pub fn answer(self, number: u8) -> Stepped
        ensures { result ≡ on self (refused self.head number) }
    {
        Stepped {
            channel: self,
            answer: Answer::numbered(number),
        }
    }
}
