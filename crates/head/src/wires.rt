// Document 01, 'A sequence on the wires': what needs no table.
ghost use Rattle.std.specs.Prelude.{◌≡◌, ◌<◌};
ghost use Rattle.head.specs.State.{headed};
ghost use Rattle.head.specs.Head.{halt_of, kind_of, ended_by, frame_ended, stopped, clocked, noted, failed, late_by, faulted, turn_at};

use crate::state::{Answer, Head};
use rules::{Action, Event, FEMSK, Kind, Phase};
use sequence::{Ending, Fault, Turn};

impl Head {
    pub fn halts(&self) -> bool
        ensures { result ≡ halt_of self.now }
    {
        sequence::halted(self.walk.fe, self.walk.sto)
    }

    pub fn kind(&self) -> Kind
        ensures { result ≡ kind_of self.now }
    {
        self.straps.kind
    }

    #[tactic(auto, unfolding(crate::specs::Head::stopped))]
    pub fn stop(&mut self, a: Action) -> Answer
        ensures { headed self.new result ≡ stopped self.old a }
    {
        self.walk.phase = Phase::Stopping;
        Answer::act(a)
    }

    #[tactic(auto, unfolding(crate::specs::Head::clocked))]
    pub fn clock(&mut self, n: usize) -> Answer
        requires { n < 64 }
        ensures { headed self.new result ≡ clocked self.old n }
    {
        self.walk.phase = Phase::Receiving(n as u8);
        Answer::act(Action::C)
    }

    #[tactic(auto, using(laws::specs::Cases::cases), unfolding(sequence::specs::Walk::nack_flags))]
    pub fn note(&mut self, read: bool)
        ensures { self.new ≡ noted self.old read }
    {
        if read {
            self.flags.re = true;
        } else {
            self.flags.we = true;
        }
    }

    #[tactic(auto, unfolding(crate::specs::Head::failed, crate::specs::Head::stopped))]
    pub fn fail(&mut self) -> Answer
        ensures { headed self.new result ≡ failed self.old }
    {
        self.walk.error = true;
        self.stop(Action::P)
    }

    #[tactic(auto, using(laws::specs::Cases::cases), unfolding(sequence::specs::Walk::late_flags, sequence::specs::Walk::late_walk))]
    pub fn be_late(&mut self)
        ensures { self.new ≡ late_by self.old }
    {
        if rules::bit(self.regs.intmsk, FEMSK) {
            self.flags.fe = true;
        } else {
            self.walk.fe = true;
        }
    }

    #[tactic(auto, using(laws::specs::Cases::cases), unfolding(sequence::specs::Walk::fault_flags))]
    pub fn fault(&mut self, f: Fault)
        ensures { self.new ≡ faulted self.old f }
    {
        match f {
            Fault::Dae => self.flags.dae = true,
            Fault::Cle => self.flags.cle = true,
            Fault::Sse => self.flags.sse = true,
        }
        self.walk = sequence::idle_walk();
    }

    // ---- the frame's end

    #[tactic(auto, using(laws::specs::Cases::cases), unfolding(sequence::specs::Walk::end_flags))]
    pub fn end_by(&mut self, e: Ending)
        ensures { self.new ≡ ended_by self.old e }
    {
        match e {
            Ending::Fe => self.flags.fe = true,
            Ending::Error => {}
            Ending::Sd => {
                self.flags.sd = true;
                self.flags.fld = sequence::fld_after(
                    self.regs.te,
                    self.settings.framecnt,
                    self.flags.fld,
                );
            }
            Ending::Wait(_) => self.flags.sd = true,
        }
        self.walk = sequence::end_walk(e);
    }

    #[tactic(auto, unfolding(crate::specs::Head::frame_ended))]
    pub fn end_frame(&mut self)
        ensures { self.new ≡ frame_ended self.old }
    {
        let w = self.walk;
        let rest = sequence::rest(self.regs.te, self.settings.framecnt, w.ended);
        let e = sequence::ends(w.fe, w.error, w.sto, w.seq, rest);
        self.end_by(e);
    }

    // ---- an event

    pub fn turn_at(&self, e: Event) -> Turn
        ensures { result ≡ turn_at self.now e }
    {
        sequence::turn_of(
            self.kind(),
            self.walk.phase,
            self.regs.te,
            self.settings.framecnt,
            e,
        )
    }
}
