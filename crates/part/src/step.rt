// One step of the part: of one channel, of the whole part, or of none.
ghost use Rattle.std.specs.Prelude.{true, ◌≡◌};
ghost use Rattle.steps.specs.Facts.{InPart};
ghost use Rattle.part.specs.State.{given};
ghost use Rattle.part.specs.Step.{part_in, one_step, one_bytes, trigger_step, all_served, all_stored, forgetting, part_served, part_stored, part_step, part_bytes};
ghost use Rattle.part.specs.Facts.{Whole, OneReady};

use crate::state::{Part, PartStepped};
use interrupt::be_after;
use rules::{BUFFER, DONE, Edge, OUT_OF_RANGE, Refusal};
use steps::{
    Op, PartAnswer, Step, Target, Wide, act_at, no_acts, op_writes, target_of, wide_writes,
};

impl Part {
    // A step of channel c, on its own 4,352 bytes. A frame that doesn't fit shows as BE.
    pub fn one(&mut self, mem: &mut [u8], c: u8, op: Op) -> PartAnswer
        requires { OneReady self.old mem.old c }
        ensures { (given self.new result ≡ one_step self.old mem.old c op) × (mem.new ≡ one_bytes self.old mem.old c op) }
    {
        let i = c as usize;
        let start = BUFFER * i;
        let a = self.channels[i].serve(c, &mut mem[start..start + BUFFER], op);
        self.be = be_after(self.be, a.number);
        PartAnswer {
            number: a.number,
            value: a.value,
            actions: act_at(c, a.action),
        }
    }

    // A trigger edge over all three channels, with an action for each.
    fn trigger(&mut self, edge: Edge) -> PartAnswer
        requires { part_in self.old ≡ true }
        ensures { given self.new result ≡ trigger_step self.old edge }
    {
        let mut actions = no_acts();
        // By number: three lists go side by side, the channels, BE after each of them and the actions (`edge_channel`, `edge_be`, `edge_act`).
        for c in 0..3 {
            let a = self.channels[c].trigger(edge);
            self.be = be_after(self.be, a.number);
            actions[c] = a.action;
        }
        PartAnswer {
            number: DONE,
            value: 0,
            actions,
        }
    }

    // A step of the whole part.
    #[tactic(auto, unfolding(crate::specs::Step::all_served, crate::specs::Step::all_stored))]
    pub fn all(&mut self, mem: &mut [u8], t: Wide) -> PartAnswer
        requires { Whole self.old mem.old }
        ensures { (given self.new result ≡ all_served self.old t) × (mem.new ≡ all_stored self.old mem.old t) }
    {
        match t {
            Wide::CtrlWrite(reg, v) => self.put_ctrl(mem, reg, v),
            Wide::CtrlRead(reg) => self.read_ctrl(reg),
            Wide::AllTrigger(edge) => self.trigger(edge),
            Wide::AllReset(d) => self.reset(mem, d),
            Wide::Beyond => PartAnswer::refused(Refusal::Nowhere),
        }
    }

    // Any write to the part, refused or not, forgets every pending A5h but its own register's.
    #[tactic(auto, using(laws::specs::Cases::cases), unfolding(crate::specs::Step::forgetting))]
    fn forget(&mut self, t: Target)
        ensures { self.new ≡ forgetting t self.old }
    {
        match t {
            Target::One(op, c) if op_writes(op) => self.forget_but(c),
            Target::All(w) if wide_writes(w) => self.forget_but(3),
            _ => {}
        }
    }

    // A step of a part and a memory that no. 9 does not refuse, by whom it concerns. What it forgets comes first.
    pub fn serve(&mut self, mem: &mut [u8], t: Target) -> PartAnswer
        requires { Whole self.old mem.old × InPart t }
        ensures { (given self.new result ≡ part_served self.old mem.old t) × (mem.new ≡ part_stored self.old mem.old t) }
    {
        self.forget(t);
        match t {
            Target::One(op, c) => self.one(mem, c, op),
            Target::All(w) => self.all(mem, w),
        }
    }

    // One step of the part, at any record and any memory.
    pub fn step(mut self, mem: &mut [u8], s: Step) -> PartStepped
        ensures { (result ≡ part_step self mem.old s) × (mem.new ≡ part_bytes self mem.old s) }
    {
        if !self.accepts_len(mem.len()) {
            return self.answer(OUT_OF_RANGE);
        }
        let answer = self.serve(mem, target_of(s));
        PartStepped { part: self, answer }
    }
}
