//! Calls as numbers.

ghost use Rattle.std.specs.Prelude.{◌≡◌, ◌≤◌};
ghost use Rattle.end_c.specs.Asked.{call_of, room_of};

use end::{Call, ROOM};

/// A call, and the length of the buffer that it is lent.
#[derive(Clone, Copy, PartialEq, Eq, Debug)]
pub(crate) struct Asked {
    pub call: Call,
    pub room: usize,
}

impl From<u16> for Asked {
    ghost from_gives = { λ n asked. (asked.call ≡ call_of n) × (asked.room ≡ room_of n) };

    /// The low nine bits are a byte (0 to 255), a tick (256) or the question which sockets are open; the
    /// bits above tell how many bytes the buffer is short of 16.
    fn from(number: u16) -> Asked {
        let call = match number % 512 {
            byte @ 0..=255 => Call::Byte(byte as u8),
            256 => Call::Tick,
            _ => Call::Open,
        };
        let room = ROOM.saturating_sub(usize::from(number / 512));
        Asked { call, room }
    }
}
