//! The lines of a script: each is a call on the end, or blank.

ghost use Rattle.std.specs.Prelude.{◌≤◌};

use heads::HeadKind;

/// The length of the buffer that a call gets, at most 64.
#[derive(Clone, Copy, Debug, PartialEq, Eq)]
pub struct Room {
    pub len: usize,
    ghost few: { len ≤ 64 },
}

/// The buffer that a call has where the script names no other.
pub const USUAL: Room = Room { len: 16 };

/// A line that is understood.
#[derive(Debug, PartialEq, Eq, Drop)]
pub enum Line {
    /// Nothing, or a comment alone: it makes no call and writes nothing.
    Blank,
    /// An end over a head of this kind.
    Head(HeadKind),
    Byte(u8, Room),
    Send(Vec<u8>),
    /// So many ticks.
    Tick(u32, Room),
    Open,
    /// A setting's number.
    Look(u8),
    Slots,
    TakeOff,
}
