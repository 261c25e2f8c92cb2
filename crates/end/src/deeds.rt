//! What calls do to the head and the sockets, always together.

ghost use Rattle.end.specs.Deeds.{DropsBoth};

use crate::end::End;
use crate::socket::{Sockets, Which};
use head::{Endings, Head, Order};

/// A head with both slots dropped.
pub(crate) fn idled<H: Head>(mut head: H) -> H
    ensures { DropsBoth H.dropped head result }
{
    head.drop_slot(1);
    head.drop_slot(2);
    head
}

impl<H: Head> End<H> {
    ghost use Rattle.end.specs.Deeds.{cancels, clears, displaces, starts, ticks};
    ghost use Rattle.end.specs.Ends.{Worked};
    ghost use Rattle.end.specs.Sockets.{socket_number};

    /// Drops both slots and closes both sockets.
    pub(crate) fn clear(&mut self)
        ensures { Worked clears self.old self.new }
    {
        self.head.drop_slot(1);
        self.head.drop_slot(2);
        self.sockets = Sockets::CLOSED;
    }

    /// Drops a slot and closes its socket.
    pub(crate) fn drop_command(&mut self, which: Which)
        ensures { Worked (cancels (socket_number which)) self.old self.new }
    {
        self.head.drop_slot(which.number());
        self.sockets.close(which);
    }

    /// Gives a slot an order and opens its socket.
    #[inline(always)]
    pub(crate) fn start_command(&mut self, which: Which, order: &Order)
        ensures { Worked (starts (socket_number which) order.now) self.old self.new }
    {
        // The head never turns it down: rows admit only targets in range, the slot of a closed socket
        // is idle, and an order that shares a setting was dropped before.
        let _ = self.head.start(which.number(), order);
        self.sockets.fill(which, order);
    }

    /// Drops the other slot's order, then gives a slot its order.
    pub(crate) fn displace_command(&mut self, which: Which, order: &Order)
        ensures { Worked (displaces (socket_number which) order.now) self.old self.new }
    {
        self.drop_command(which.other());
        self.start_command(which, order);
    }

    /// Ticks the head, and closes a socket whose order ended.
    #[inline(always)]
    pub(crate) fn tick_head(&mut self) -> Endings
        ensures { Worked (ticks result) self.old self.new }
    {
        let endings = self.head.tick();
        self.sockets.settle(endings);
        endings
    }
}
