//! A body in its parts, and what a row of a table makes of it.

ghost use Rattle.std.specs.Prelude.{◌≡◌, ◌<◌, ℕ, Bool, List, ◌∷◌, length, Option, IfSome, IfNone};

/// The parts of a body, behind its first byte.
#[derive(Clone, Copy, PartialEq, Eq, Debug)]
pub struct Body<'a> {
    pub category: u8,
    pub code: u8,
    pub operands: &'a [u8],
}

/// A row of a table: the category and the codes that it has, and what it makes of the operands
/// behind them.
pub trait Row {
    type Meaning: Drop;

    ghost has: { Self → ℕ → ℕ → Bool };

    ghost reads: { Self → ℕ → List ℕ → Option Self.Meaning };

    /// Whether the row has the body's category and code.
    fn covers(&self, body: &Body<'_>) -> bool
        ensures { result ≡ has self.now body.now.category body.now.code };

    /// What the row makes of the operands behind that code; nothing if it does not admit them.
    fn read(&self, body: &Body<'_>) -> Option<Self::Meaning>
        ensures { result ≡ reads self.now body.now.code body.now.operands.now };
}

impl<'a> Body<'a> {
    /// Bytes in parts, if there are enough of them.
    pub(crate) fn of(bytes: &'a [u8]) -> Option<Body<'a>>
        ensures some { IfSome result (λ b. bytes.now ≡ b.category ∷ b.code ∷ b.operands.now) }
        ensures none { IfNone result (length bytes.now < 2) }
    {
        match bytes {
            [category, code, operands @ ..] => Some(Body {
                category: *category,
                code: *code,
                operands,
            }),
            _ => None,
        }
    }
}
