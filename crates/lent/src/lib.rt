// The step over a record that is lent: thin over the step by value.
#![tactic(auto)]

ghost use Rattle.std.specs.Prelude.{◌≡◌};
ghost use Rattle.channel.specs.Step.{step_of, bytes_after};

use channel::{Channel, Stepped};
use head::Answer;
use steps::Op;

// One step of the channel with this number, at any record and any memory: the record is lent, and found altered.
pub fn step_lent(c: &mut Channel, number: u8, mem: &mut [u8], op: Op) -> Answer
    ensures { (result ≡ (step_of c.old mem.old number op).answer)
        × (c.new ≡ (step_of c.old mem.old number op).channel)
        × (mem.new ≡ bytes_after c.old mem.old number op) }
{
    let Stepped { channel, answer } = c.step(number, mem, op);
    *c = channel;
    answer
}
