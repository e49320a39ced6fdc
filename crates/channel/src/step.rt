// One step of a single channel: a write, a read, or an event of the wires.
ghost use Rattle.std.specs.Prelude.{◌≡◌};
ghost use Rattle.rules.specs.Numbers.{number_of};
ghost use Rattle.head.specs.State.{answer_by};
ghost use Rattle.channel.specs.State.{leaving, stepped};
ghost use Rattle.channel.specs.Step.{event_at, served_by, range_number, step_of, bytes_after};
ghost use Rattle.channel.specs.Facts.{Accepted};

use crate::state::{Channel, Stepped};
use head::Answer;
use rules::{BUFFER, Event, Refusal};
use steps::Op;

// No. 9: of a memory of this length, and a record that is in range or not. Its name and its `ok` are those of the definition `range_number`.
#[tactic(auto, using(laws::specs::Cases::cases), unfolding(crate::specs::Step::range_number))]
pub fn range_number(len: usize, ok: bool) -> Result<(), Refusal>
    ensures { number_of result ≡ range_number len ok }
{
    if len == BUFFER && ok {
        Ok(())
    } else {
        Err(Refusal::OutOfRange)
    }
}

impl Channel {
    #[tactic(auto, using(crate::proofs::Laws::Step::turn_meets, laws::specs::Cases::cases), unfolding(crate::specs::Step::event_at))]
    fn event_at(&mut self, mem: &mut [u8], number: u8, e: Event) -> Result<Answer, Refusal>
        requires { Accepted self.old mem.old }
        ensures { leaving mem.new (stepped self.new (answer_by result)) ≡ event_at self.old mem.old number e }
    {
        if 2 < number {
            return Err(Refusal::Nowhere);
        }
        let t = self.head.turn_at(e);
        Ok(self.turn(mem, t))
    }

    // A step of a channel that is in range, in place.
    #[tactic(auto, unfolding(crate::specs::Step::served_by))]
    pub fn serve(&mut self, number: u8, mem: &mut [u8], op: Op) -> Answer
        requires { Accepted self.old mem.old }
        ensures { leaving mem.new (stepped self.new result) ≡ served_by self.old mem.old number op }
    {
        Answer::by(match op {
            Op::Write(a, v) => self.write(mem, rules::place_of(number, a), v),
            Op::Read(a) => self.read(mem, rules::place_of(number, a)),
            Op::Wire(e) => self.event_at(mem, number, e),
        })
    }

    // One step of the channel with this number, at any record and any memory.
    // It 'takes the channel's record by value and hands it back' (document 01); `serve` is the step in place.
    pub fn step(mut self, number: u8, mem: &mut [u8], op: Op) -> Stepped
        ensures { (result ≡ step_of self mem.old number op) × (mem.new ≡ bytes_after self mem.old number op) }
    {
        if let Err(e) = range_number(mem.len(), self.in_range()) {
            return self.answer(e.number());
        }
        let answer = self.serve(number, mem, op);
        Stepped {
            channel: self,
            answer,
        }
    }
}
