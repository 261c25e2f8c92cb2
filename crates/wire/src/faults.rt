//! What is wrong with a byte, in words, and as the numbers that people read.

ghost use Rattle.std.specs.Prelude.{◌≡◌};
ghost use Rattle.wire.specs.Framing.{framing_code};

use fault::{FaultCode, Layer};
use thiserror::Error;

/// What is wrong with a byte; the packet that it belongs to is dropped.
#[derive(Clone, Copy, Debug, PartialEq, Eq, Error)]
pub enum FramingFault {
    /// Fault 2: no packet is begun, and the byte is no header.
    #[error("a packet does not begin with this byte")]
    NoHeader,
    /// Fault 3: FF right behind the header.
    #[error("no body between header and FF")]
    NoBody,
    /// Fault 4: a sixteenth byte that is not FF.
    #[error("more than 16 bytes, the rest is skipped")]
    Overlong,
}

impl From<FramingFault> for FaultCode {
    ghost from_gives = { λ fault code. code ≡ framing_code fault };

    fn from(fault: FramingFault) -> FaultCode {
        let (number, place) = match fault {
            FramingFault::NoHeader => (2, 0),
            FramingFault::NoBody => (3, 1),
            FramingFault::Overlong => (4, 15),
        };
        FaultCode {
            number,
            layer: Layer::Framing,
            place,
        }
    }
}
