//! What comes of a whole packet.

ghost use Rattle.std.specs.Prelude.{◌≡◌, ◌≤◌, length};

use crate::end::End;
use crate::faults::Fault;
use crate::sending::{both, put};
use crate::socket::Which;
use head::{Head, Look, Order};
use rows::{Command, Request, answer, read};
use rules::{Problem, Reply, Rule, forbidden};
use wire::Packet;

// Outcomes speak of address, head and sockets one by one, and of no whole state: what stands between bytes
// is nothing to them.
impl<H: Head> End<H> {
    ghost use Rattle.end.specs.Ends.{CameOf};
    ghost use Rattle.end.specs.Faults.{answered, counts};
    ghost use Rattle.end.specs.Outcomes.{cancelled, commanded, met, own, own_header as own_header_of, requested, taken};
    ghost use Rattle.end.specs.Sockets.{powering_in, socket_number};
    ghost use Rattle.end.specs.States.{meaning};
    ghost use Rattle.rows.specs.Orders.{subject};
    ghost use Rattle.rows.specs.Requests.{read_body};
    ghost use Rattle.rules.specs.Modes.{forbidden_by};
    ghost use Rattle.rules.specs.Ring.{rule_of};
    ghost use Rattle.wire.specs.Framing.{bytes_of};
    ghost use Rattle.wire.specs.Line.{over};

    /// The header of the end's own packets, X0.
    pub(crate) fn own_header(&self) -> u8
        ensures { result ≡ own_header_of self.now.address }
    {
        (self.address + 8) * 16
    }

    // Sends a reply of the end's own.
    fn send(&self, reply: Reply, out: &mut [u8]) -> usize
        requires { 16 ≤ length out.old }
        ensures count { result ≡ length (own self.now.address reply) }
        ensures sent { out.new ≡ over (own self.now.address reply) out.old }
    {
        reply.send(self.own_header(), out).unwrap()
    }

    // Whether a mode forbids a command, or the head lacks what it needs.
    fn forbids(&self, command: &Command, order: &Order) -> bool
        ensures { result ≡ forbidden_by (H.Look.setting self.now.head) (H.Look.pantilt self.now.head)
            (powering_in self.now.sockets) (subject command.now) order.now }
    {
        forbidden(
            &self.head,
            self.sockets.powering_on(),
            command.subject(),
            order,
        )
    }

    // A command for a socket, with the other's displaced where it names a common setting.
    fn accept(&mut self, which: Which, order: &Order, out: &mut [u8]) -> usize
        requires { 16 ≤ length out.old }
        ensures { CameOf self.old (taken self.old.address self.old.sockets (socket_number which) order.now)
            (counts result) out.old out.new self.new }
    {
        let other = which.other();
        let taken = Reply::Acknowledgement(which.number());
        if !self.sockets.shares_setting(other, order) {
            self.start_command(which, order);
            return self.send(taken, out);
        }
        self.displace_command(which, order);
        let header = self.own_header();
        let displaced = Reply::Error(other.number(), Problem::Cancelled);
        put(
            both(displaced.packet(header), taken.packet(header)).as_slice(),
            out,
        )
    }

    // An admitted command.
    #[inline(always)]
    fn command(&mut self, command: &Command, out: &mut [u8]) -> usize
        requires { 16 ≤ length out.old }
        ensures { CameOf self.old
            (commanded self.old.address (meaning H.Look H.slots self.old.head) self.old.sockets command.now)
            (counts result) out.old out.new self.new }
    {
        if !self.sockets.has_room() {
            return self.send(Reply::Error(0, Problem::BufferFull), out);
        }
        let order = command.order();
        if self.forbids(command, &order) {
            return self.send(Reply::Error(0, Problem::NotExecutable), out);
        }
        let which = self.sockets.free();
        self.accept(which, &order, out)
    }

    // A cancel of the command in the socket with this number.
    fn cancel(&mut self, number: u8, out: &mut [u8]) -> usize
        requires { 16 ≤ length out.old }
        ensures { CameOf self.old (cancelled self.old.address self.old.sockets number)
            (counts result) out.old out.new self.new }
    {
        match Which::numbered(number) {
            Some(which) if self.sockets.get(which).is_some() => {
                self.drop_command(which);
                self.send(Reply::Error(number, Problem::Cancelled), out)
            }
            _ => self.send(Reply::Error(number, Problem::NoSocket), out),
        }
    }

    // A body that the rows read, or say what is wrong with; of that there is a reply.
    #[inline(never)]
    fn request(&mut self, body: &[u8], out: &mut [u8]) -> Result<usize, Fault>
        requires { 16 ≤ length out.old }
        ensures { CameOf self.old
            (requested self.old.address (meaning H.Look H.slots self.old.head) self.old.sockets (read_body body.now))
            (answered result) out.old out.new self.new }
    {
        let read = read(body);
        if read.is_err() {
            self.send(Reply::Error(0, Problem::Syntax), out);
        }
        match read? {
            Request::Command(_, command) => Ok(self.command(&command, out)),
            Request::Ask(inquiry) => {
                Ok(answer(&self.head, inquiry, self.own_header(), out).unwrap())
            }
        }
    }

    /// What comes of a whole packet. Most bytes make none whole, so that it is kept apart from what every byte does,
    /// and so is room for its answer: it is made here, and not where bytes are taken.
    #[inline(always)]
    pub(crate) fn meet(&mut self, packet: &Packet, out: &mut [u8]) -> Result<usize, Fault>
        requires { 16 ≤ length out.old }
        ensures { CameOf self.old
            (met self.old.address (meaning H.Look H.slots self.old.head) self.old.sockets (bytes_of packet.now)
            (rule_of self.old.address (bytes_of packet.now)))
            (answered result) out.old out.new self.new }
    {
        self.by_rule(packet, out)
    }

    // The same, by the first rule of the ring that the packet meets: what it sends, or what is wrong with its body.
    #[inline(never)]
    fn by_rule(&mut self, packet: &Packet, out: &mut [u8]) -> Result<usize, Fault>
        requires { 16 ≤ length out.old }
        ensures { CameOf self.old
            (met self.old.address (meaning H.Look H.slots self.old.head) self.old.sockets (bytes_of packet.now)
            (rule_of self.old.address (bytes_of packet.now)))
            (answered result) out.old out.new self.new }
    {
        match Rule::of(self.address, packet) {
            Rule::TakenOff => Ok(0),
            Rule::AddressSet(w) => {
                self.clear();
                self.address = w;
                Ok(put(&[0x88, 0x30, w + 1, 0xff], out))
            }
            Rule::ClearedForAll => {
                self.clear();
                Ok(put(packet.bytes(), out))
            }
            Rule::SentOn => Ok(put(packet.bytes(), out)),
            Rule::Cleared => {
                self.clear();
                Ok(self.send(Reply::Completion(0), out))
            }
            Rule::Cancelled(number) => Ok(self.cancel(number, out)),
            Rule::Requested => self.request(packet.body(), out),
        }
    }
}
