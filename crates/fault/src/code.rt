//! A fault as the numbers that people read. Each layer converts its own faults to it, which no other layer knows.

ghost use Rattle.std.specs.Prelude.{◌≡◌};
ghost use Rattle.fault.specs.Faults.{layer_number};

/// The layer that finds a fault, each by its number.
#[derive(Clone, Copy, Debug, PartialEq, Eq)]
pub enum Layer {
    Call = 0,
    Framing = 1,
    Packet = 2,
    Row = 3,
}

/// A fault by number, layer and place, counted from the header as 0.
#[derive(Clone, Copy, Debug, PartialEq, Eq)]
pub struct FaultCode {
    pub number: u8,
    pub layer: Layer,
    pub place: u8,
}

impl Layer {
    /// The layer's number, 0 to 3.
    pub fn number(self) -> u8
        ensures { result ≡ layer_number self }
    {
        self as u8
    }
}
