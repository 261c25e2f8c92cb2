//! Heads as numbers.

ghost use Rattle.std.specs.Prelude.{◌≡◌};
ghost use Rattle.end_c.specs.Asked.{kind_numbered};

use heads::HeadKind;

/// A block (0), a dome (1) or a dome that is stalled (any other number).
pub(crate) fn kind(number: u8) -> HeadKind
    ensures { result ≡ kind_numbered number }
{
    match number {
        0 => HeadKind::Block,
        1 => HeadKind::Dome,
        _ => HeadKind::StalledDome,
    }
}
