//! The block: a head without pan and tilt that does every order in one tick.

ghost use Rattle.std.specs.Prelude.{◌≡◌};

use crate::gear::Gear;
use crate::geared::Geared;
use crate::motion::Motion;
use crate::rig::Rig;

/// The gear of a block.
#[derive(Clone, Copy, Debug, PartialEq, Eq)]
pub struct Fixed;

impl Gear for Fixed {
    ghost use Rattle.std.specs.Prelude.{false};
    ghost use Rattle.heads.specs.declared.motion.Motion.TheVariants.{AtOnce};
    ghost use Rattle.std.proofs.Common.{rules};

    ghost PAN_TILT = { false };

    ghost motion = { λ g. AtOnce };

    ghost ticks = { λ f o. 1 };

    ghost chosen = { Prim.search rules };

    const PAN_TILT: bool = false;

    fn motion(&self) -> Motion {
        Motion::AtOnce
    }
}

pub type Block = Geared<Fixed>;

impl Geared<Fixed> {
    ghost use Rattle.head.specs.declared.setting.Setting.{Setting};
    ghost use Rattle.head.specs.Meaning.{idle};
    ghost use Rattle.head.specs.Settings.{about};
    ghost use Rattle.heads.specs.Geared.{geared_meaning};

    /// A block with its first settings, both slots idle.
    pub fn new() -> Block
        ensures settings { (s : Setting) → (geared_meaning result).setting s ≡ (about s).first }
        ensures slots { (geared_meaning result).slots ≡ record { one = idle; two = idle } }
    {
        Geared {
            gear: Fixed,
            rig: Rig::new(Fixed.motion()),
        }
    }
}
