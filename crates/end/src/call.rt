//! A call on an end, to be told or listed.

/// A call.
#[derive(Clone, Copy, PartialEq, Eq, Debug)]
pub enum Call {
    /// A byte from the line.
    Byte(u8),
    /// One tick of the head.
    Tick,
    /// Which sockets are open?
    Open,
}
