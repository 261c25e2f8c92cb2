//! A whole packet: a header from 80 to FE, a body of 1 to 14 bytes, and FF, which stands only last.

ghost use Rattle.std.specs.Prelude.{◌≡◌, true};
ghost use Rattle.wire.specs.Packets.{is_packet};

use crate::bytes::Bytes;

/// The bytes of a whole packet, and nothing else: no value of this type is otherwise.
#[derive(Clone, Copy, Debug, PartialEq, Eq)]
pub struct Packet {
    pub(crate) bytes: Bytes,
    ghost form: { is_packet bytes ≡ true },
}

#[tactic(auto, using(crate::proofs::Forms::packet_some))]
impl Packet {
    ghost use Rattle.std.specs.Prelude.{slice_index};
    ghost use Rattle.wire.specs.Framing.{bytes_of};
    ghost use Rattle.wire.specs.Packets.{body_of};

    /// All bytes, from the header to the last FF.
    pub fn bytes(&self) -> &[u8]
        ensures { result.now ≡ bytes_of self.now }
    {
        self.bytes.as_slice()
    }

    /// The first byte.
    pub fn header(&self) -> u8
        ensures { result ≡ slice_index (bytes_of self.now) 0 }
    {
        self.bytes()[0]
    }

    /// What stands between the header and the last FF.
    pub fn body(&self) -> &[u8]
        ensures { result.now ≡ body_of (bytes_of self.now) }
    {
        match self.bytes() {
            [_, body @ .., _] => body,
            _ => unreachable!(),
        }
    }
}

impl From<Packet> for Bytes {
    ghost use Rattle.wire.specs.Framing.{bytes_of};

    ghost from_gives = { λ packet bytes. bytes ≡ bytes_of packet };

    fn from(packet: Packet) -> Bytes {
        packet.bytes
    }
}
