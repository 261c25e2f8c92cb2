//! What an end holds.

ghost use Rattle.std.specs.Prelude.{◌≤◌};

use crate::socket::Sockets;
use head::Head;
use wire::Framer;

/// The end of the line at a camera head, which it has by value: nobody else can give that head an
/// order until the end is taken off. Neither can be copied.
#[derive(Drop)]
pub struct End<H: Head> {
    pub(crate) head: H,
    /// 1 to 7, or 0 while none is set: a number and no `Option`, since headers are made of it, 0 too.
    pub(crate) address: u8,
    pub(crate) framer: Framer,
    pub(crate) sockets: Sockets,
    ghost low: { address ≤ 7 },
}
