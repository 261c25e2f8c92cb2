//! Up to 16 bytes in memory of their own, so that nothing on the line can fail for want of memory.

ghost use Rattle.std.specs.Prelude.{◌≡◌, ◌+◌, ◌<◌, ◌≤◌, [], ◌∷◌, ◌++◌, length, if◌then◌else◌, is_ok, nat_le};
ghost use Rattle.wire.specs.Kept.{if_room};

use crate::writer::send_at;
use std::marker::Model;
use thiserror::Error;

/// There is no room for so many bytes.
#[derive(Clone, Copy, Debug, PartialEq, Eq, Error)]
#[error("no room for so many bytes")]
pub struct Full;

/// At most 16 bytes in order. The room behind them holds 0, so that equal lists are equal values.
#[derive(Clone, Copy, Debug, PartialEq, Eq)]
pub struct Bytes {
    room: [u8; 16],
    len: usize,
}

impl Model for Bytes {
    ghost use Rattle.std.specs.Prelude.{ℕ, List, length, take};
    ghost use Rattle.wire.specs.Kept.{Padded, padded};

    ghost Value = { List ℕ };

    ghost view = { λ b. take b.len b.room };

    ghost invariant = { λ b. Padded b.len b.room };

    ghost inverse = { λ bs. record { room = padded bs; len = length bs } };

    ghost inverse_ok = { λ b h i. record { room = h.rest i; len = h.count i } };
}

impl Bytes {
    /// No byte.
    pub fn new() -> Bytes
        ensures { result ≡ [] }
    {
        Bytes {
            room: [0; 16],
            len: 0,
        }
    }

    pub(crate) fn len(&self) -> usize
        ensures count { result ≡ length self.now }
        ensures most { result ≤ 16 }
    {
        self.len
    }

    /// The bytes, first to last.
    pub fn as_slice(&self) -> &[u8]
        ensures { result.now ≡ self.now }
    {
        &self.room[..self.len]
    }

    pub(crate) fn push(&mut self, byte: u8)
        requires { length self.old < 16 }
        ensures { self.new ≡ self.old ++ byte ∷ [] }
    {
        self.room[self.len] = byte;
        self.len += 1;
    }

    /// Keeps more bytes behind these: all of them, or none where they are more than there is room for.
    pub fn extend_from_slice(&mut self, more: &[u8]) -> Result<(), Full>
        ensures fits { is_ok result ≡ nat_le (length self.old + length more.now) 16 }
        ensures kept { self.new ≡ (if nat_le (length self.old + length more.now) 16 then self.old ++ more.now else self.old) }
    {
        self.len = send_at(&mut self.room, self.len, more).ok_or(Full)?;
        Ok(())
    }
}

impl TryFrom<&[u8]> for Bytes {
    type Error = Full;

    ghost try_from_gives = { λ bytes r. r ≡ if_room bytes.now };

    fn try_from(bytes: &[u8]) -> Result<Bytes, Full> {
        let mut kept = Bytes::new();
        kept.extend_from_slice(bytes)?;
        Ok(kept)
    }
}
