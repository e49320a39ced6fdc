// The sums by which a printed line tells the buffer, the state and the memory.
ghost use Rattle.std.specs.Prelude.{◌<◌};

use channel::Channel;
use head::{Head, Settings};
use part::Part;
use rules::{Action, Kind, Phase, Ptrs, Regs, Walk};

const MODULUS: u64 = 4294967291;

// A sum goes from number to number: 257 times what it was, and the number.
#[derive(Clone, Copy)]
pub(crate) struct Sum {
    value: u64,
    ghost below: { value < 4294967291 },
}

impl Sum {
    pub(crate) fn new() -> Self {
        Sum { value: 1 }
    }

    pub(crate) fn value(&self) -> u64 {
        self.value
    }

    // ---- numbers

    fn number(&mut self, n: u16) {
        self.value = (self.value * 257 + n as u64) % MODULUS;
    }

    fn byte(&mut self, b: u8) {
        self.number(b as u16);
    }

    fn flag(&mut self, f: bool) {
        self.number(f as u16);
    }

    fn place(&mut self, n: usize) {
        self.number((n % 65536) as u16);
    }

    // Three bytes by one remainder, which takes most of the time: 66,049 is the square of 257, and 16,974,593 its cube.
    fn three(&mut self, [a, b, c]: [u8; 3]) {
        self.value = (self.value * 16974593 + a as u64 * 66049 + b as u64 * 257 + c as u64)
            % MODULUS;
    }

    pub(crate) fn bytes(&mut self, bytes: &[u8]) {
        let (threes, rest) = bytes.as_chunks::<3>();
        for &three in threes {
            self.three(three);
        }
        for &b in rest {
            self.byte(b);
        }
    }

    // ---- the state

    pub(crate) fn actions(&mut self, actions: [Action; 3]) {
        for action in actions {
            let tag = rules::action_tag(action);
            self.bytes(&[tag.kind, tag.value]);
        }
    }

    pub(crate) fn part(&mut self, p: &Part) {
        for channel in &p.channels {
            self.channel(channel);
        }
        self.flag(p.be);
        self.byte(p.mask);
        self.flag(p.key);
    }

    fn channel(&mut self, c: &Channel) {
        self.bytes(&c.slatable);
        self.bytes(&c.tranconfig);
        self.bytes(&c.status);
        self.bytes(&c.bytecount);
        self.head(&c.head);
    }

    fn head(&mut self, h: &Head) {
        self.regs(h.regs);
        self.pointers(h.ptrs);
        self.byte(rules::chstatus_value(h.flags));
        self.walk(h.walk);
        self.flag(h.key);
        self.flag(h.straps.kind == Kind::Ufm);
        self.settings(h.settings);
    }

    fn regs(&mut self, r: Regs) {
        self.bytes(&[r.intmsk, r.transel, r.tranofs]);
        self.flag(r.tp);
        self.flag(r.te);
    }

    fn pointers(&mut self, p: Ptrs) {
        for place in [p.sla, p.conf, p.buf, p.count] {
            self.place(place);
        }
    }

    fn walk(&mut self, w: Walk) {
        self.phase(w.phase);
        self.byte(w.ended);
        for flag in [w.sto, w.seq, w.fe, w.error] {
            self.flag(flag);
        }
    }

    // The number of a phase, and its transaction or 0.
    fn phase(&mut self, p: Phase) {
        self.bytes(&match p {
            Phase::Idle => [0, 0],
            Phase::Address(n) => [1, n],
            Phase::Sending(n) => [2, n],
            Phase::Receiving(n) => [3, n],
            Phase::Stopping => [4, 0],
            Phase::Waiting => [5, 0],
        });
    }

    fn settings(&mut self, s: Settings) {
        self.bytes(&[s.framecnt, s.refrate, s.scll, s.sclh, s.mode, s.timeout]);
    }
}
