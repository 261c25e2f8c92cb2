//! What tells our heads apart: whether they have pan and tilt, and how they move.

ghost use Rattle.std.specs.Prelude.{◌≡◌, ℕ, Bool, ℤ};
ghost use Rattle.head.specs.declared.order.Order.{Order};
ghost use Rattle.head.specs.declared.setting.Setting.{Setting};
ghost use Rattle.heads.specs.declared.motion.Motion.{Motion as M};
ghost use Rattle.heads.specs.Exact.{ticks_of};

use crate::motion::Motion;

/// What a head moves by.
pub trait Gear {
    ghost PAN_TILT: { Bool };

    ghost motion: { Self → M };

    // What an order takes where the settings have these values.
    ghost ticks: { (Setting → ℤ) → Order → ℕ };

    /// Whether it has pan and tilt.
    const PAN_TILT: bool;

    /// How it moves positions.
    fn motion(&self) -> Motion
        ensures { result ≡ motion self.now };

    ghost chosen: { (g : Self) (f : Setting → ℤ) (o : Order) → ticks_of (motion g) f o ≡ ticks f o };
}
