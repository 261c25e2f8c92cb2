//! What a head answers: why it turns an order down, and what a tick tells of its slots.

ghost use Rattle.std.specs.Prelude.{◌≡◌};

use std::error::Error;
use std::fmt;

/// Why an order is turned down, in the order in which the reasons are looked at.
#[derive(Clone, Copy, Debug, PartialEq, Eq)]
pub enum Refusal {
    /// The slot is neither 1 nor 2.
    NoSuchSlot = 1,
    SlotBusy,
    /// A target is out of the range of its setting.
    OutOfRange,
    /// The order names pan, tilt or one of their drives, and the head has none.
    NoPanTilt,
    /// The other slot's order names a setting of this one.
    SettingInUse,
}

impl Refusal {
    ghost use Rattle.head.specs.Meaning.{refusal_number as number_of};

    /// The reason's number, 1 to 5.
    pub fn number(self) -> u8
        ensures { result ≡ number_of self }
    {
        self as u8
    }
}

impl fmt::Display for Refusal {
    fn fmt<W: fmt::Write>(&self, f: &mut fmt::Formatter<W>) -> fmt::Result {
        f.write_str(match self {
            Refusal::NoSuchSlot => "there is no such slot",
            Refusal::SlotBusy => "the slot has work",
            Refusal::OutOfRange => "a target is out of range",
            Refusal::NoPanTilt => "this head has no pan and tilt",
            Refusal::SettingInUse => "the other slot's order names that setting",
        })
    }
}

impl Error for Refusal {}

/// How an order ended.
#[derive(Clone, Copy, Debug, PartialEq, Eq)]
pub enum Ending {
    Done,
    /// A position did not get to its target.
    Jammed,
}

/// The orders that ended at a tick, by slot.
#[derive(Clone, Copy, Debug, PartialEq, Eq)]
pub struct Endings {
    pub one: Option<Ending>,
    pub two: Option<Ending>,
}
