// Document 01, 'A sequence on the wires': frames, events and trigger edges of a channel.
#![tactic(auto, using(laws::specs::Cases::cases, crate::proofs::Laws::Wires::byte_in, crate::proofs::Laws::Range::range_count), unfolding(crate::specs::Wires::sent_to, crate::specs::Wires::started_by, crate::specs::Wires::started, crate::specs::Wires::cleared, crate::specs::Wires::passed, crate::specs::Wires::began_by, crate::specs::Wires::begun, crate::specs::Wires::moved_to, crate::specs::Wires::onward, crate::specs::Wires::finished, crate::specs::Wires::byte_sent, crate::specs::Wires::send_on, crate::specs::Wires::ack_address, crate::specs::Wires::ack_sending, crate::specs::Wires::counted_one, crate::specs::Wires::receive_on, crate::specs::Wires::received, crate::specs::Wires::failed_by, crate::specs::Wires::nacked, crate::specs::Wires::turned, crate::specs::Wires::beaten, crate::specs::Wires::triggered))]

ghost use Rattle.std.specs.Prelude.{true, ◌≡◌, ◌+◌, ◌<◌, ◌≤◌, length, get_or};
ghost use Rattle.rules.specs.Numbers.{buffer_size};
ghost use Rattle.rules.specs.Tables.{start_of};
ghost use Rattle.rules.specs.Facts.{Running};
ghost use Rattle.sequence.specs.Facts.{Counting, Exists, Ready};
ghost use Rattle.sequence.specs.Wires.{next_of};
ghost use Rattle.head.specs.Head.{halt_of};
ghost use Rattle.channel.specs.State.{leaving, stepped};
ghost use Rattle.channel.specs.Range.{in_range};
ghost use Rattle.channel.specs.Wires.{length_of, bytes_of, counted_one, sent_to, started_by, started, cleared, began_by, begun, moved_to, onward, finished, byte_sent, send_on, ack_write, ack_address, ack_sending};
ghost use Rattle.channel.specs.Wires.{receive_on, received, failed_by, nacked, turned, beaten, triggered};
ghost use Rattle.channel.specs.Facts.{Meets};

use crate::state::Channel;
use head::Answer;
use rules::{
    ADDRESS_REFUSED, Action, DATA_REFUSED, DONE_STATUS, Edge, NOT_BEGUN, Phase, Refusal, UNDERWAY,
};
use sequence::{Beat, Beginning, Move, Next, Tail, Turn};

impl Channel {
    // ---- a frame begins

    fn send(&mut self, n: usize, a: Action) -> Answer
        requires { n < 64 }
        ensures { stepped self.new result ≡ sent_to self.old n a }
    {
        self.status[n] = UNDERWAY;
        self.head.walk.phase = Phase::Address(n as u8);
        Answer::act(a)
    }

    fn start_by(&mut self, m: Move) -> Answer
        requires { Exists m }
        ensures { stepped self.new result ≡ started_by self.old m }
    {
        let Move::Send(n) = m else {
            self.head.end_frame();
            return Answer::done();
        };
        self.send(n, Action::S(self.slatable[n]))
    }

    // All STATUS and BYTECOUNT become 0, and the frame starts.
    fn start(&mut self) -> Answer
        requires { get_or self.old.tranconfig 0 0 ≤ 64 }
        ensures { stepped self.new result ≡ started (cleared self.old) }
    {
        self.status = [NOT_BEGUN; 64];
        self.bytecount = [0; 64];
        let count = rules::byte(self.tranconfig[0]);
        let to = rules::first_sent(self.head.kind(), &self.slatable, &self.tranconfig, 0, count);
        let m = sequence::next_move(false, to, count);
        rules::mark(&mut self.status, 0, to);
        self.start_by(m)
    }

    fn begin_by(&mut self, b: Beginning) -> Answer
        requires { get_or self.old.tranconfig 0 0 ≤ 64 }
        ensures { stepped self.new result ≡ began_by self.old b }
    {
        match b {
            Beginning::Empty => {
                self.head.walk = sequence::idle_walk();
                Answer::done()
            }
            Beginning::Unfit => {
                self.head.walk = sequence::idle_walk();
                Answer::refused(Refusal::PastBuffer)
            }
            Beginning::Fit => self.start(),
        }
    }

    pub(crate) fn begin(&mut self) -> Answer
        requires { get_or self.old.tranconfig 0 0 ≤ 64 }
        ensures { stepped self.new result ≡ begun self.old }
    {
        let fit = rules::fits(&self.tranconfig);
        self.begin_by(sequence::begins(rules::byte(self.tranconfig[0]), fit))
    }

    // ---- behind a transaction

    // Either a stop or the transaction to send.
    fn move_to(&mut self, t: Tail, m: Move) -> Answer
        requires { Exists m }
        ensures { stepped self.new result ≡ moved_to self.old t m }
    {
        let Move::Send(n) = m else {
            return self.head.stop(sequence::stop_by(t));
        };
        self.send(n, sequence::again_by(t, self.slatable[n]))
    }

    fn onward(&mut self, n: usize, t: Tail) -> Answer
        requires { Running self.old.tranconfig n }
        ensures { stepped self.new result ≡ onward self.old n t }
    {
        let halt = self.head.halts();
        let to = sequence::reach(self.head.kind(), halt, n, &self.slatable, &self.tranconfig);
        let m = sequence::next_move(halt, to, rules::byte(self.tranconfig[0]));
        rules::mark(&mut self.status, n + 1, to);
        self.move_to(t, m)
    }

    fn finish(&mut self, n: usize, t: Tail) -> Answer
        requires { Running self.old.tranconfig n }
        ensures { stepped self.new result ≡ finished self.old n t }
    {
        self.status[n] = DONE_STATUS;
        self.onward(n, t)
    }

    // BYTECOUNT plus one, and what the byte after it is.
    fn count(&mut self, n: usize) -> Next
        requires { Counting self.old.tranconfig self.old.bytecount n }
        ensures { (self.new ≡ counted_one self.old n) × (result ≡ next_of (halt_of self.old.head) (bytes_of self.old n + 1) (length_of self.old n))
            × Ready result (bytes_of self.old n + 1) (length_of self.old n) }
    {
        self.bytecount[n] += 1;
        sequence::next_byte(
            self.head.halts(),
            rules::byte(self.bytecount[n]),
            rules::byte(self.tranconfig[n + 1]),
        )
    }

    // ---- ACK

    fn send_byte(&mut self, mem: &[u8], n: usize, k: usize) -> Answer
        requires { (n < 64) × (start_of self.old.tranconfig n + k < length mem.now) }
        ensures { stepped self.new result ≡ byte_sent self.old mem.now n k }
    {
        self.head.walk.phase = Phase::Sending(n as u8);
        Answer::act(Action::D(mem[rules::start_of(&self.tranconfig, n) + k]))
    }

    fn send_on(&mut self, mem: &[u8], n: usize, k: usize, x: Next) -> Answer
        requires { Running self.old.tranconfig n × Ready x k (get_or self.old.tranconfig (n + 1) 0) × (length mem.now ≡ buffer_size) }
        ensures { stepped self.new result ≡ send_on self.old mem.now n k x }
    {
        match x {
            Next::Cut => self.head.stop(Action::P),
            Next::More => self.send_byte(mem, n, k),
            Next::Over => self.finish(n, Tail::Plain),
        }
    }

    fn ack_write(&mut self, mem: &[u8], n: usize) -> Answer
        requires { Running self.old.tranconfig n × (length mem.now ≡ buffer_size) }
        ensures { stepped self.new result ≡ ack_write self.old mem.now n }
    {
        let len = rules::byte(self.tranconfig[n + 1]);
        let x = sequence::next_byte(self.head.halts(), 0, len);
        self.send_on(mem, n, 0, x)
    }

    fn ack_address(&mut self, mem: &[u8], n: usize) -> Answer
        requires { Running self.old.tranconfig n × (length mem.now ≡ buffer_size) }
        ensures { stepped self.new result ≡ ack_address self.old mem.now n }
    {
        if rules::reads(self.slatable[n]) {
            self.head.clock(n)
        } else {
            self.ack_write(mem, n)
        }
    }

    fn ack_sending(&mut self, mem: &[u8], n: usize) -> Answer
        requires { Counting self.old.tranconfig self.old.bytecount n × (length mem.now ≡ buffer_size) }
        ensures { stepped self.new result ≡ ack_sending self.old mem.now n }
    {
        let x = self.count(n);
        self.send_on(mem, n, rules::byte(self.bytecount[n]), x)
    }

    // ---- BYTE

    fn receive_on(&mut self, n: usize, x: Next) -> Answer
        requires { Running self.old.tranconfig n }
        ensures { stepped self.new result ≡ receive_on self.old n x }
    {
        match x {
            Next::Cut => self.head.stop(Action::Np),
            Next::More => Answer::act(Action::A),
            Next::Over => self.finish(n, Tail::Nacked),
        }
    }

    fn receive(&mut self, mem: &mut [u8], n: usize, b: u8) -> Answer
        requires { Counting self.old.tranconfig self.old.bytecount n × (length mem.old ≡ buffer_size) }
        ensures { leaving mem.new (stepped self.new result) ≡ received self.old mem.old n b }
    {
        sequence::store(&self.tranconfig, &self.bytecount, mem, n, b);
        let x = self.count(n);
        self.receive_on(n, x)
    }

    // ---- NACK

    fn fail_by(&mut self, n: usize, masked: bool) -> Answer
        requires { Running self.old.tranconfig n }
        ensures { stepped self.new result ≡ failed_by self.old n masked }
    {
        if masked {
            self.onward(n, Tail::Plain)
        } else {
            self.head.fail()
        }
    }

    fn nack(&mut self, n: usize, v: u8) -> Answer
        requires { Running self.old.tranconfig n }
        ensures { stepped self.new result ≡ nacked self.old n v }
    {
        let read = rules::reads(self.slatable[n]);
        self.status[n] = v;
        self.head.note(read);
        self.fail_by(n, sequence::masked(self.head.regs.intmsk, read))
    }

    // ---- an event, and a trigger edge

    pub(crate) fn turn(&mut self, mem: &mut [u8], t: Turn) -> Answer
        requires { Meets self.old t × (length mem.old ≡ buffer_size) }
        ensures { leaving mem.new (stepped self.new result) ≡ turned self.old mem.old t }
    {
        match t {
            Turn::AckAddress(n) => return self.ack_address(mem, n),
            Turn::AckSending(n) => return self.ack_sending(mem, n),
            Turn::Receive(n, b) => return self.receive(mem, n, b),
            Turn::NackAddress(n) => return self.nack(n, ADDRESS_REFUSED),
            Turn::NackSending(n) => return self.nack(n, DATA_REFUSED),
            Turn::Begin => return self.begin(),
            Turn::Unawaited => return Answer::refused(Refusal::NotAwaited),
            Turn::Late => self.head.be_late(),
            Turn::End => self.head.end_frame(),
            Turn::Fault(f) => self.head.fault(f),
        }
        Answer::done()
    }

    fn beat(&mut self, b: Beat) -> Answer
        requires { get_or self.old.tranconfig 0 0 ≤ 64 }
        ensures { stepped self.new result ≡ beaten self.old b }
    {
        match b {
            Beat::Quiet => {}
            Beat::Begin => return self.begin(),
            Beat::Late => self.head.be_late(),
        }
        Answer::done()
    }

    // A trigger edge's effect on a channel that is in range, in place.
    pub fn trigger(&mut self, edge: Edge) -> Answer
        requires { in_range self.old ≡ true }
        ensures { stepped self.new result ≡ triggered self.old edge }
    {
        self.beat(sequence::edge_beat(
            self.head.walk.phase,
            self.head.regs.te,
            self.head.regs.tp,
            edge,
        ))
    }
}
