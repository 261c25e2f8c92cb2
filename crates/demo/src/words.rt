//! What the packets that the box sends say, in words.

ghost use Rattle.std.specs.Prelude.{◌≡◌, IfSome};
ghost use Rattle.rows.specs.Digits.{from_digits};

use rules::{Problem, Reply, Unread};
use std::fmt;

/// The body of a packet that the box sent, to be said in words.
#[derive(Clone, Copy, Debug, PartialEq, Eq)]
pub struct InWords<'a>(pub &'a [u8]);

// What a packet says that is a reply.
fn write_reply<W: fmt::Write>(f: &mut fmt::Formatter<W>, reply: Reply) -> fmt::Result {
    match reply {
        Reply::Acknowledgement(socket) => write!(f, "acknowledged in socket {socket}"),
        Reply::Completion(0) => write!(f, "another packet"),
        Reply::Completion(socket) => write!(f, "done in socket {socket}"),
        Reply::Error(0, Problem::Syntax) => write!(f, "not understood"),
        Reply::Error(0, Problem::BufferFull) => write!(f, "both sockets are taken"),
        Reply::Error(0, Problem::NotExecutable) => write!(f, "not possible now"),
        Reply::Error(socket, Problem::Cancelled) => write!(f, "cancelled in socket {socket}"),
        Reply::Error(socket, Problem::NoSocket) => {
            write!(f, "nothing to cancel in socket {socket}")
        }
        Reply::Error(socket, Problem::NotExecutable) => write!(f, "jammed in socket {socket}"),
        Reply::Error(..) => write!(f, "another error"),
    }
}

// The number of four digits.
fn number(digits: [u8; 4]) -> u32
    ensures { IfSome (from_digits digits) (λ n. result ≡ n) }
{
    let [p, q, r, s] = digits.map(u32::from);
    p * 4096 + q * 256 + r * 16 + s
}

impl fmt::Display for InWords<'_> {
    fn fmt<W: fmt::Write>(&self, f: &mut fmt::Formatter<W>) -> fmt::Result {
        match (Reply::read(self.0), self.0) {
            (Ok(reply), _) => write_reply(f, reply),
            (_, [0x30, next]) => write!(f, "address {next} is for the next camera"),
            (_, [0x50, p, q, r, s]) => write!(f, "at {}", number([*p, *q, *r, *s])),
            (Err(Unread::Error(..)), _) => write!(f, "another error"),
            _ => write!(f, "another packet"),
        }
    }
}
