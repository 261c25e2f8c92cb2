//! What an end says of itself, as packets: a header, one or two bytes, and FF; and what others say, read from bodies.

ghost use Rattle.std.specs.Prelude.{◌≡◌};
ghost use Rattle.rules.specs.Replies.{problem_code, problem_of, as_error};

use head::Ending;
use thiserror::Error;
use wire::{Bytes, send_at};

/// What is wrong, by VISCA's code.
#[derive(Clone, Copy, PartialEq, Eq, Debug)]
pub enum Problem {
    /// No row admits the packet.
    Syntax = 0x02,
    /// Both sockets are open.
    BufferFull = 0x03,
    /// The command was cancelled.
    Cancelled = 0x04,
    /// No command is in that socket.
    NoSocket = 0x05,
    /// A mode forbids the command, the head lacks what it needs, or it jammed.
    NotExecutable = 0x41,
}

/// A code that stands for no problem.
#[derive(Clone, Copy, PartialEq, Eq, Debug, Error)]
#[error("{0:02X} stands for no problem")]
pub struct UnknownCode(pub u8);

/// A reply. Its socket is 0 where it is about none; of a number above 15 the low digit counts.
#[derive(Clone, Copy, PartialEq, Eq, Debug)]
pub enum Reply {
    /// `4Y`: socket Y has taken the command.
    Acknowledgement(u8),
    /// `5Y`: the command in socket Y is done; `50`: the line is cleared.
    Completion(u8),
    /// `6Y` and a code.
    Error(u8, Problem),
}

/// Why a body is read as no reply.
#[derive(Clone, Copy, PartialEq, Eq, Debug, Error)]
pub enum Unread {
    /// It is an error of this socket, and its code stands for no problem.
    #[error("error of socket {0}: {1}")]
    Error(u8, UnknownCode),
    /// No reply has its form.
    #[error("no reply has this form")]
    Form,
}

impl Problem {
    /// The code on the line.
    pub fn code(self) -> u8
        ensures { result ≡ problem_code self }
    {
        self as u8
    }
}

impl TryFrom<u8> for Problem {
    type Error = UnknownCode;

    ghost try_from_gives = { λ code r. r ≡ problem_of code };

    fn try_from(code: u8) -> Result<Problem, UnknownCode> {
        match code {
            0x02 => Ok(Problem::Syntax),
            0x03 => Ok(Problem::BufferFull),
            0x04 => Ok(Problem::Cancelled),
            0x05 => Ok(Problem::NoSocket),
            0x41 => Ok(Problem::NotExecutable),
            _ => Err(UnknownCode(code)),
        }
    }
}

// An error of this socket, by its code.
fn error(socket: u8, code: u8) -> Result<Reply, Unread>
    ensures { result ≡ as_error socket (problem_of code) }
{
    Problem::try_from(code)
        .map(|problem| Reply::Error(socket, problem))
        .map_err(|unknown| Unread::Error(socket, unknown))
}

impl Reply {
    ghost use Rattle.rules.specs.Replies.{ending_reply, packet, reply_of};
    ghost use Rattle.wire.specs.Line.{over_if_room, count_if_room, over_at_if_room, next_if_room};

    /// What is told of a command's ending in this socket: it is done, or the head jammed.
    pub fn of_ending(socket: u8, ending: Ending) -> Reply
        ensures { result ≡ ending_reply socket ending }
    {
        match ending {
            Ending::Done => Reply::Completion(socket),
            Ending::Jammed => Reply::Error(socket, Problem::NotExecutable),
        }
    }

    /// The reply's packet.
    pub fn packet(self, header: u8) -> Bytes
        ensures { result ≡ packet header self }
    {
        let mut room = [0; 4];
        let count = self.send(header, &mut room).unwrap();
        Bytes::try_from(&room[..count]).unwrap()
    }

    /// Puts the reply's packet at the front of a buffer, and tells its length; a buffer that is too short for it is
    /// left as it is.
    #[inline]
    pub fn send(self, header: u8, out: &mut [u8]) -> Option<usize>
        ensures count { result ≡ count_if_room (packet header self) out.old }
        ensures sent { out.new ≡ over_if_room (packet header self) out.old }
    {
        self.send_at(header, out, 0)
    }

    /// Puts the reply's packet into a buffer from a place on, and tells the place behind it; a buffer that is too short
    /// for it is left as it is.
    #[inline]
    pub fn send_at(self, header: u8, out: &mut [u8], at: usize) -> Option<usize>
        ensures next { result ≡ next_if_room at (packet header self) out.old }
        ensures sent { out.new ≡ over_at_if_room at (packet header self) out.old }
    {
        match self {
            Reply::Acknowledgement(y) => send_at(out, at, &[header, 0x40 + y % 16, 0xff]),
            Reply::Completion(y) => send_at(out, at, &[header, 0x50 + y % 16, 0xff]),
            Reply::Error(y, problem) => {
                send_at(out, at, &[header, 0x60 + y % 16, problem.code(), 0xff])
            }
        }
    }

    /// Reads a body, what stands between header and FF, as a reply.
    pub fn read(body: &[u8]) -> Result<Reply, Unread>
        ensures { result ≡ reply_of body.now }
    {
        match body {
            [b @ 0x40..=0x4f] => Ok(Reply::Acknowledgement(*b - 0x40)),
            [b @ 0x50..=0x5f] => Ok(Reply::Completion(*b - 0x50)),
            [b @ 0x60..=0x6f, code] => error(*b - 0x60, *code),
            _ => Err(Unread::Form),
        }
    }
}
