//! What is wrong with a body, by the layer that finds it: in words, and as number, layer and place.

ghost use Rattle.std.specs.Prelude.{◌≡◌};

use fault::{FaultCode, Layer};
use thiserror::Error;

/// Found by the row search.
#[derive(Clone, Copy, Debug, PartialEq, Eq, Error)]
pub enum RowFault {
    /// Fault 6: no row of its kind has that category and code.
    #[error("no row has this category and code")]
    NoSuchCode,
    /// Fault 7: a row has them, and none admits what stands behind them.
    #[error("no row admits these operands")]
    NoSuchOperands,
}

/// Found by the packet layer, or passed on by it whole.
#[derive(Clone, Copy, Debug, PartialEq, Eq, Error)]
pub enum PacketFault {
    /// Fault 5: the body is neither a command nor an inquiry.
    #[error("neither a command nor an inquiry")]
    UnknownBody,
    /// What the row search found.
    #[error(transparent)]
    Row(RowFault),
}

impl From<RowFault> for PacketFault {
    ghost use Rattle.rows.specs.declared.faults.PacketFault.TheVariants.{Row};

    ghost from_gives = { λ e r. r ≡ Row e };

    fn from(fault: RowFault) -> PacketFault {
        Self::Row(fault)
    }
}

impl From<RowFault> for FaultCode {
    ghost use Rattle.rows.specs.Search.{row_code};

    ghost from_gives = { λ fault code. code ≡ row_code fault };

    fn from(fault: RowFault) -> FaultCode {
        let (number, place) = match fault {
            RowFault::NoSuchCode => (6, 2),
            RowFault::NoSuchOperands => (7, 4),
        };
        FaultCode {
            number,
            layer: Layer::Row,
            place,
        }
    }
}

// A row's fault is passed on whole.
impl From<PacketFault> for FaultCode {
    ghost use Rattle.rows.specs.Requests.{packet_code};

    ghost from_gives = { λ fault code. code ≡ packet_code fault };

    fn from(fault: PacketFault) -> FaultCode {
        match fault {
            PacketFault::UnknownBody => FaultCode {
                number: 5,
                layer: Layer::Packet,
                place: 1,
            },
            PacketFault::Row(fault) => fault.into(),
        }
    }
}
