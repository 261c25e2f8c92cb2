//! What a command says, before it is an order: small, since it is handed on by what searches the rows.

ghost use Rattle.std.specs.Prelude.{◌≡◌};
ghost use Rattle.rows.specs.Orders.{to as target_of};

use head::{Axis, Order, Paces, Setting, Target, Targets};

/// Zoom or focus, at a lens pace, and the position that it is to have.
#[derive(Clone, Copy, Debug, PartialEq, Eq)]
pub struct LensPosition {
    pub axis: Axis,
    pub lens: u8,
    pub position: i32,
}

/// Values of pan and tilt, or of their drives, and the paces.
#[derive(Clone, Copy, Debug, PartialEq, Eq)]
pub struct PanTiltMove {
    pub pan: i32,
    pub tilt: i32,
    pub paces: Paces,
}

/// What a command says.
#[derive(Clone, Copy, Debug, PartialEq, Eq)]
pub enum Command {
    /// A setting alone is to get a value.
    Set(Target),
    /// Zoom or focus is to go to a position at a lens pace, and its drive is to stop.
    Position(LensPosition),
    /// The drives of pan and tilt are to get values.
    PanTiltDrive(PanTiltMove),
    /// Pan and tilt are to go to positions, and their drives are to stop.
    PanTiltPosition(PanTiltMove),
}

/// No pace.
pub(crate) const STILL: Paces = Paces {
    lens: 0,
    pan: 0,
    tilt: 0,
};

pub(crate) fn to(setting: Setting, value: i32) -> Target
    ensures { result ≡ target_of setting value }
{
    Target { setting, value }
}

impl Command {
    ghost use Rattle.head.specs.Orders.{parts, all_in_range};
    ghost use Rattle.rows.specs.Orders.{order_of, subject as subject_of};
    ghost use Rattle.rows.specs.Reading.{ranged as ranged_by};

    // Whether every target of its order is in the range of its setting.
    #[inline(always)]
    fn in_range(self) -> bool
        ensures { result ≡ all_in_range (parts (order_of self).targets) }
    {
        match self {
            Command::Set(target) => target.setting.admits(target.value),
            // A drive may always be stopped.
            Command::Position(to) => to.axis.position().admits(to.position),
            Command::PanTiltDrive(to) => {
                Setting::PanDrive.admits(to.pan) && Setting::TiltDrive.admits(to.tilt)
            }
            Command::PanTiltPosition(to) => {
                Setting::Pan.admits(to.pan) && Setting::Tilt.admits(to.tilt)
            }
        }
    }

    /// The command, if every target of its order is in range.
    #[tactic(auto, unfolding(crate::specs::Reading::ranged))]
    #[inline(always)]
    pub(crate) fn ranged(self) -> Option<Command>
        ensures { result ≡ ranged_by self }
    {
        self.in_range().then_some(self)
    }

    /// The setting that the command's code stands for: of a position its own, of pan and tilt that of pan.
    pub fn subject(&self) -> Setting
        ensures { result ≡ subject_of self.now }
    {
        match self {
            Command::Set(target) => target.setting,
            Command::Position(to) => to.axis.position(),
            Command::PanTiltDrive(_) => Setting::PanDrive,
            Command::PanTiltPosition(_) => Setting::Pan,
        }
    }

    /// The order that it is.
    #[tactic(auto, using(crate::specs::Orders::position_and_drive))]
    #[inline(always)]
    pub fn order(&self) -> Order
        ensures { result ≡ order_of self.now }
    {
        match *self {
            Command::Set(target) => Order {
                targets: Targets::One([target]),
                paces: STILL,
            },
            Command::Position(
                LensPosition {
                    axis,
                    lens,
                    position,
                },
            ) => Order {
                targets: Targets::Two([to(axis.position(), position), to(axis.drive(), 0)]),
                paces: Paces { lens, ..STILL },
            },
            Command::PanTiltDrive(PanTiltMove { pan, tilt, paces }) => Order {
                targets: Targets::Two([to(Setting::PanDrive, pan), to(Setting::TiltDrive, tilt)]),
                paces,
            },
            Command::PanTiltPosition(PanTiltMove { pan, tilt, paces }) => Order {
                targets: Targets::Four([
                    to(Setting::Pan, pan),
                    to(Setting::Tilt, tilt),
                    to(Setting::PanDrive, 0),
                    to(Setting::TiltDrive, 0),
                ]),
                paces,
            },
        }
    }
}
