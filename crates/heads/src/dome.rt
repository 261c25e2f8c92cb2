//! The dome: a head with pan and tilt that moves by steps, and that may be stalled.

ghost use Rattle.std.specs.Prelude.{◌≡◌};

use crate::gear::Gear;
use crate::geared::Geared;
use crate::motion::Motion;
use crate::rig::Rig;

/// The gear of a dome.
#[derive(Clone, Copy, Debug, PartialEq, Eq)]
pub struct Turning {
    /// Made so: no position ever moves.
    pub stalled: bool,
}

impl Gear for Turning {
    ghost use Rattle.std.specs.Prelude.{true};
    ghost use Rattle.heads.specs.Exact.{longest};
    ghost use Rattle.heads.specs.Heads.{motion_of, steps_counted};

    ghost PAN_TILT = { true };

    ghost motion = { λ g. motion_of g.stalled };

    ghost ticks = { longest };

    ghost chosen = { λ g f o. steps_counted g.stalled f o };

    const PAN_TILT: bool = true;

    fn motion(&self) -> Motion {
        if self.stalled {
            Motion::Stalled
        } else {
            Motion::Stepwise
        }
    }
}

pub type Dome = Geared<Turning>;

impl Geared<Turning> {
    ghost use Rattle.head.specs.declared.setting.Setting.{Setting};
    ghost use Rattle.head.specs.Meaning.{idle};
    ghost use Rattle.head.specs.Settings.{about};
    ghost use Rattle.heads.specs.Geared.{gear_of, geared_meaning};

    /// A dome with its first settings, both slots idle; with the stall mark it never moves a
    /// position.
    pub fn new(stalled: bool) -> Dome
        ensures settings { (s : Setting) → (geared_meaning result).setting s ≡ (about s).first }
        ensures slots { (geared_meaning result).slots ≡ record { one = idle; two = idle } }
        ensures stalled { gear_of result ≡ record { stalled = stalled } }
    {
        let gear = Turning { stalled };
        let rig = Rig::new(gear.motion());
        Geared { gear, rig }
    }
}
