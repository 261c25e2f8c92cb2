//! The framer: where it stands between bytes, and what it makes of each byte.

use crate::bytes::Bytes;
use crate::faults::FramingFault;
use crate::packet::Packet;
use std::marker::Model;

/// Between bytes.
///
/// ```text
///            80..FE            not FF, up to 15 bytes
///  ┌──────┐ ────────▶ ┌───────┐ ──┐
///  │ Idle │           │ Begun │   │
///  └──────┘ ◀──────── └───────┘ ◀─┘
///   ▲  ▲  │   FF: whole, or     │
///   │  │  │   fault 3 if it is  │ not FF, as the 16th byte:
///   │  └──┘   the second byte   │ fault 4
///   │  other: fault 2           ▼
///   │                     ┌──────────┐ ──┐
///   └──────────────────── │ Skipping │   │ not FF
///            FF           └──────────┘ ◀─┘
/// ```
///
/// Idle: no packet is begun. Begun: the bytes so far are kept. Skipping: the rest of a packet that
/// is too long is let go by, its FF too. (Begun stands last, since the compiler asks for the last first.)
#[derive(Clone, Copy, Debug, PartialEq, Eq)]
pub(crate) enum State {
    Idle,
    Skipping,
    Begun(Bytes),
}

/// Makes packets of bytes, one byte at a time.
#[derive(Debug, Drop)]
pub struct Framer {
    pub(crate) state: State,
}

impl Model for Framer {
    ghost use Rattle.std.specs.Prelude.{◌≡◌, true};
    ghost use Rattle.wire.specs.Framing.{Held};
    ghost use Rattle.wire.specs.States.{held, sound};

    ghost Value = { Held };

    ghost view = { λ f. held f.state };

    ghost invariant = { λ f. sound f.state ≡ true };
}

impl Framer {
    ghost use Rattle.std.specs.Prelude.{◌≡◌};
    ghost use Rattle.wire.specs.Framing.{none, held_after, event, event_told};

    /// A framer with no packet begun.
    pub fn new() -> Framer
        ensures { result ≡ none }
    {
        Framer { state: State::Idle }
    }

    /// Takes one byte: it may make a packet whole, or be at fault.
    #[tactic(auto, using(crate::proofs::Forms::begun_more, crate::proofs::Forms::begun_whole))]
    #[inline]
    pub fn feed(&mut self, byte: u8) -> Result<Option<Packet>, FramingFault>
        ensures state { self.new ≡ held_after self.old byte }
        ensures event { event_told result ≡ event self.old byte }
    {
        match (&mut self.state, byte) {
            (State::Idle, 0x80..=0xfe) => {
                let mut bytes = Bytes::new();
                bytes.push(byte);
                self.state = State::Begun(bytes);
                Ok(None)
            }
            (State::Idle, _) => Err(FramingFault::NoHeader),
            (State::Begun(begun), 0xff) => {
                if begun.len() == 1 {
                    self.state = State::Idle;
                    return Err(FramingFault::NoBody);
                }
                begun.push(byte);
                let bytes = *begun;
                self.state = State::Idle;
                Ok(Some(Packet { bytes }))
            }
            (State::Begun(bytes), _) => {
                if bytes.len() == 15 {
                    self.state = State::Skipping;
                    return Err(FramingFault::Overlong);
                }
                bytes.push(byte);
                Ok(None)
            }
            (State::Skipping, 0xff) => {
                self.state = State::Idle;
                Ok(None)
            }
            (State::Skipping, _) => Ok(None),
        }
    }
}
