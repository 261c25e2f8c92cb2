//! Whole packets in words: what is asked of a camera, and what cameras reply.

use crate::words::{InWords, explain_fault};
use hexadecimal::Hex;
use rows::{Form, Inquiry, Request, read};
use rules::{Problem, Reply, Rule, UnknownCode, Unread};
use std::{fmt, io};
use wire::Packet;

impl fmt::Display for InWords<Inquiry> {
    fn fmt<W: fmt::Write>(&self, f: &mut fmt::Formatter<W>) -> fmt::Result {
        let Inquiry { setting, form } = self.0;
        match form {
            Form::PanTilt => write!(f, "inquiry: pan and tilt"),
            _ => write!(f, "inquiry: {setting}"),
        }
    }
}

impl fmt::Display for InWords<Request> {
    fn fmt<W: fmt::Write>(&self, f: &mut fmt::Formatter<W>) -> fmt::Result {
        match self.0 {
            Request::Command(_, command) => InWords(command.order()).fmt(f),
            Request::Ask(inquiry) => InWords(inquiry).fmt(f),
        }
    }
}

// What is asked of one camera.
fn explain_request(rt: &impl Print, body: &[u8]) -> io::Result<()> {
    match Rule::of_body(body) {
        Rule::Cleared => println!(rt; "clear"),
        Rule::Cancelled(socket) => println!(rt; "cancel: socket {socket}"),
        _ => match read(body) {
            Ok(request) => rt.println(InWords(request)),
            Err(fault) => explain_fault(rt, fault.into(), &fault),
        },
    }
}

// The body of a broadcast.
#[derive(Clone, Copy, Debug, PartialEq, Eq)]
struct Broadcast<'a>(&'a [u8]);

impl fmt::Display for Broadcast<'_> {
    fn fmt<W: fmt::Write>(&self, f: &mut fmt::Formatter<W>) -> fmt::Result {
        match self.0 {
            [0x30, next @ 1..=7] => write!(f, "address set: the next camera is {next}"),
            [0x30, 0x08] => write!(f, "address set: every camera has its address"),
            [0x01, 0x00, 0x01] => write!(f, "clear, for every camera"),
            _ => write!(f, "another broadcast"),
        }
    }
}

impl fmt::Display for InWords<Problem> {
    fn fmt<W: fmt::Write>(&self, f: &mut fmt::Formatter<W>) -> fmt::Result {
        f.write_str(match self.0 {
            Problem::Syntax => "syntax error",
            Problem::BufferFull => "both sockets are open",
            Problem::Cancelled => "cancelled",
            Problem::NoSocket => "no such socket is open",
            Problem::NotExecutable => "not executable",
        })
    }
}

impl fmt::Display for InWords<Reply> {
    fn fmt<W: fmt::Write>(&self, f: &mut fmt::Formatter<W>) -> fmt::Result {
        match self.0 {
            Reply::Acknowledgement(socket) => write!(f, "acknowledgement, socket {socket}"),
            Reply::Completion(0) => write!(f, "done"),
            Reply::Completion(socket) => write!(f, "completion, socket {socket}"),
            Reply::Error(socket, problem) => {
                write!(f, "error, socket {socket}: {}", InWords(problem))
            }
        }
    }
}

// The body of what a camera replies. Other makes have errors and answers of their own.
#[derive(Clone, Copy, Debug, PartialEq, Eq)]
struct Replied<'a>(&'a [u8]);

impl fmt::Display for Replied<'_> {
    fn fmt<W: fmt::Write>(&self, f: &mut fmt::Formatter<W>) -> fmt::Result {
        match (Reply::read(self.0), self.0) {
            (Ok(reply), _) => InWords(reply).fmt(f),
            (Err(Unread::Error(socket, UnknownCode(1))), _) => {
                write!(f, "error, socket {socket}: message length error")
            }
            (Err(Unread::Error(socket, _)), _) => {
                write!(f, "error, socket {socket}: another error")
            }
            (Err(Unread::Form), [0x50, rest @ ..]) => write!(f, "answer {}", Hex(rest)),
            (Err(Unread::Form), _) => write!(f, "another reply"),
        }
    }
}

/// A whole packet in words, by its header: bits 6 to 4 are the sender, bit 3 marks broadcast, bits
/// 2 to 0 are the receiver.
pub fn explain_packet(rt: &impl Print, packet: &Packet) -> io::Result<()> {
    let body = packet.body();
    match packet.header() {
        0x88 => rt.println(Broadcast(body)),
        0x80..=0x8f => explain_request(rt, body),
        header => println!(rt; "from camera {}: {}", header / 16 % 8, Replied(body)),
    }
}
