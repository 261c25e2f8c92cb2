//! The calls on an end: make, byte, tick, open, take off.

ghost use Rattle.std.specs.Prelude.{◌≡◌, ◌<◌, ◌≤◌, length, take, drop, OnOk, IfErr};
ghost use Rattle.end.specs.Faults.{refused};
ghost use Rattle.end.specs.Outcomes.{both_ended};
ghost use Rattle.wire.specs.Line.{over};

use crate::deeds::idled;
use crate::end::End;
use crate::faults::{Cause, Fault};
use crate::sending::{ROOM, both, put};
use crate::socket::{OpenSockets, Sockets};
use head::{Endings, Head, Look};
use rules::Reply;
use wire::Framer;

// Whether the buffer has room for all that a call sends.
fn room(out: &[u8]) -> Result<(), Fault>
    ensures enough { OnOk result (16 ≤ length out.now) }
    ensures short { IfErr result (λ f. (length out.now < 16) × (f ≡ refused)) }
{
    if out.len() < ROOM {
        return Err(Fault {
            cause: Cause::ShortBuffer,
            sent: 0,
        });
    }
    Ok(())
}

// Sends what the sockets tell of their endings, socket 1 first.
fn tell(header: u8, endings: Endings, out: &mut [u8]) -> usize
    requires { 16 ≤ length out.old }
    ensures count { result ≡ length (both_ended header endings) }
    ensures sent { out.new ≡ over (both_ended header endings) out.old }
{
    match (endings.one, endings.two) {
        (None, None) => 0,
        (Some(one), None) => Reply::of_ending(1, one).send(header, out).unwrap(),
        (None, Some(two)) => Reply::of_ending(2, two).send(header, out).unwrap(),
        (Some(one), Some(two)) => {
            let first = Reply::of_ending(1, one).packet(header);
            let second = Reply::of_ending(2, two).packet(header);
            put(both(first, second).as_slice(), out)
        }
    }
}

impl<H: Head> End<H> {
    ghost use Rattle.end.specs.Deeds.{MadeIdle};
    ghost use Rattle.end.specs.Ends.{CameWith, HandsBack, HeadOver, TakesOver, TickCame, TickMade, head_of};
    ghost use Rattle.end.specs.Faults.{answered, count_told};
    ghost use Rattle.end.specs.Law.{Keeps};
    ghost use Rattle.end.specs.Records.{byte_record, open_record};
    ghost use Rattle.end.specs.States.{meaning, state};
    ghost use Rattle.end.specs.Steps.{Made, Step, deed_of, heard_in};
    ghost use Rattle.wire.specs.Framing.{held_after};

    /// An end over a head, whose slots are dropped: no address, no packet begun, both sockets closed.
    pub fn make(head: H) -> End<H>
        ensures made { Made (meaning H.Look H.slots head) (state result) }
        ensures head { TakesOver head result }
    {
        End {
            head: idled(head),
            address: 0,
            framer: Framer::new(),
            sockets: Sockets::CLOSED,
        }
    }

    // A byte, given room.
    #[inline]
    fn accept_byte(&mut self, byte: u8, out: &mut [u8]) -> Result<usize, Fault>
        requires { 16 ≤ length out.old }
        ensures { CameWith self.old (held_after (state self.old).held byte) (heard_in (state self.old) byte)
            (answered result) out.old out.new self.new }
    {
        let whole = self.framer.feed(byte)?;
        match whole {
            Some(packet) => self.meet(&packet, out),
            None => Ok(0),
        }
    }

    /// Takes one byte from the line. What it sends stands at the front of the buffer; the answer is
    /// the count, or a fault with the count sent. A buffer of less than 16 bytes is refused, and leaves
    /// end and head as they were.
    #[inline]
    pub fn byte(&mut self, byte: u8, out: &mut [u8]) -> Result<usize, Fault>
        ensures step { Step (state self.old) (byte_record byte out.old result out.new) (state self.new) }

        // The head went through the calls of the byte's deed, and through no others.
        ensures head { HeadOver (deed_of (state self.old) (byte_record byte out.old result out.new)) self.old self.new }
        ensures refused { length out.old < 16 → self.new ≡ self.old }
        ensures untouched { drop (count_told result) out.new ≡ drop (count_told result) out.old }
        ensures within { count_told result ≤ length out.new }
        ensures law { Keeps (state self.old) (byte_record byte out.old result out.new) (state self.new) }
    {
        room(out)?;
        self.accept_byte(byte, out)
    }

    // A tick, given room.
    #[inline(always)]
    fn accept_tick(&mut self, out: &mut [u8]) -> usize
        requires { 16 ≤ length out.old }
        ensures { TickCame self.old result out.old out.new self.new }
    {
        let endings = self.tick_head();
        // Most ticks end nothing.
        if endings.one.is_none() && endings.two.is_none() {
            return 0;
        }
        tell(self.own_header(), endings, out)
    }

    /// Ticks the head once. Socket 1 and then 2 sends its ending, if its order ended, and closes. A buffer of
    /// less than 16 bytes is refused, and leaves end and head as they were.
    #[inline(always)]
    pub fn tick(&mut self, out: &mut [u8]) -> Result<usize, Fault>
        ensures ticked { TickMade self.old out.old result out.new self.new }
        ensures refused { length out.old < 16 → self.new ≡ self.old }
        ensures untouched { drop (count_told result) out.new ≡ drop (count_told result) out.old }
        ensures within { count_told result ≤ length out.new }
    {
        room(out)?;
        Ok(self.accept_tick(out))
    }

    /// Which sockets are open.
    pub fn open(&self) -> OpenSockets
        ensures step { Step (state self.now) (open_record result.one result.two) (state self.now) }
        ensures law { Keeps (state self.now) (open_record result.one result.two) (state self.now) }
    {
        self.sockets.open()
    }

    /// The head, to be looked at.
    pub fn head(&self) -> &H
        ensures { result.now ≡ head_of self.now }
    {
        &self.head
    }

    /// Ends the end, drops both slots and hands the head back.
    pub fn take_off(self) -> H
        ensures cleared { MadeIdle (state self).head (meaning H.Look H.slots result) }
        ensures head { HandsBack self result }
    {
        let End { head, .. } = self;
        idled(head)
    }
}
