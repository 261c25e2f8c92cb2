//! The two sockets, in which commands are at work.

ghost use Rattle.std.specs.Prelude.{◌≡◌, Some, None};
ghost use Rattle.end.specs.Deeds.{settled};

use head::{Ending, Endings, Order};
use rules::powers_on;

/// Sockets 1 and 2. Each is closed, `None`, or open with the order that its command was read as.
///
/// ```text
///            acknowledgement 4Y
///  ┌────────┐ ───────────────▶ ┌─────────────┐
///  │  None  │                  │ Some(order) │
///  └────────┘ ◀─────────────── └─────────────┘
///      completion 5Y, 6Y 04 (cancelled or displaced),
///      6Y 41 (jammed), or a clearing
/// ```
#[derive(Clone, Copy, Debug, PartialEq, Eq)]
pub struct Sockets {
    // Two fields and no array: which of the two is a type, and no index that might be out of bounds.
    pub one: Option<Order>,
    pub two: Option<Order>,
}

/// Which sockets are open.
#[derive(Clone, Copy, PartialEq, Eq, Debug)]
pub struct OpenSockets {
    pub one: bool,
    pub two: bool,
}

/// One of the two.
#[derive(Clone, Copy, Debug, PartialEq, Eq)]
pub(crate) enum Which {
    One = 1,
    Two,
}

impl Which {
    ghost use Rattle.end.specs.Deeds.{other_socket};
    ghost use Rattle.end.specs.Sockets.{socket_number, socket_numbered};

    /// The socket with this number on the line, if there is one.
    pub(crate) fn numbered(number: u8) -> Option<Which>
        ensures { result ≡ socket_numbered number }
    {
        match number {
            1 => Some(Which::One),
            2 => Some(Which::Two),
            _ => None,
        }
    }

    /// Its number, on the line and at the head.
    pub(crate) fn number(self) -> u8
        ensures { result ≡ socket_number self }
    {
        self as u8
    }

    pub(crate) fn other(self) -> Which
        ensures { socket_number result ≡ other_socket (socket_number self) }
    {
        match self {
            Which::One => Which::Two,
            Which::Two => Which::One,
        }
    }
}

// Closes a socket whose order ended.
fn settle(socket: &mut Option<Order>, ending: Option<Ending>)
    ensures { socket.new ≡ settled ending socket.old }
{
    if ending.is_some() {
        *socket = None;
    }
}

impl Sockets {
    ghost use Rattle.end.specs.Deeds.{sockets_after, ticks};
    ghost use Rattle.end.specs.Sockets.{finds_room, free as free_of, is_open, powering_in, socket_at, socket_number, with_socket};
    ghost use Rattle.head.specs.Meaning.{in_use, lent};

    /// Both closed.
    pub const CLOSED: Sockets = Sockets {
        one: None,
        two: None,
    };

    pub(crate) fn get(&self, which: Which) -> Option<&Order>
        ensures { lent result ≡ socket_at self.now (socket_number which) }
    {
        match which {
            Which::One => self.one.as_ref(),
            Which::Two => self.two.as_ref(),
        }
    }

    /// Opens this socket, with the order of its command.
    pub(crate) fn fill(&mut self, which: Which, order: &Order)
        ensures { self.new ≡ with_socket self.old (socket_number which) (Some order.now) }
    {
        match which {
            Which::One => self.one = Some(*order),
            Which::Two => self.two = Some(*order),
        }
    }

    /// Closes this socket.
    pub(crate) fn close(&mut self, which: Which)
        ensures { self.new ≡ with_socket self.old (socket_number which) None }
    {
        match which {
            Which::One => self.one = None,
            Which::Two => self.two = None,
        }
    }

    /// Closes each socket whose order ended.
    pub(crate) fn settle(&mut self, endings: Endings)
        ensures { self.new ≡ sockets_after (ticks endings) self.old }
    {
        settle(&mut self.one, endings.one);
        settle(&mut self.two, endings.two);
    }

    /// Whether the order in a socket names a setting of this one.
    pub(crate) fn shares_setting(&self, which: Which, order: &Order) -> bool
        ensures { result ≡ in_use (socket_at self.now (socket_number which)) order.now }
    {
        self.get(which)
            .is_some_and(|held| order.shares_setting(held))
    }

    /// Which are open.
    pub(crate) fn open(&self) -> OpenSockets
        ensures one { result.one ≡ is_open self.now.one }
        ensures two { result.two ≡ is_open self.now.two }
    {
        OpenSockets {
            one: self.one.is_some(),
            two: self.two.is_some(),
        }
    }

    /// Whether a command finds room: one of them is closed.
    pub(crate) fn has_room(&self) -> bool
        ensures { result ≡ finds_room self.now }
    {
        self.one.is_none() || self.two.is_none()
    }

    /// Whether the order of one of them switches power on.
    pub(crate) fn powering_on(&self) -> bool
        ensures { result ≡ powering_in self.now }
    {
        self.one.as_ref().is_some_and(|held| powers_on(held))
            || self.two.as_ref().is_some_and(|held| powers_on(held))
    }

    /// The socket that a command gets: 1 if it is closed, else 2.
    pub(crate) fn free(&self) -> Which
        ensures { socket_number result ≡ free_of self.now }
    {
        if self.one.is_some() {
            Which::Two
        } else {
            Which::One
        }
    }
}
