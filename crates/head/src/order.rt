//! An order: what a slot of a head holds while it is at work.

ghost use Rattle.std.specs.Prelude.{◌≡◌, true};
ghost use Rattle.head.specs.Orders.{parts, different};

use crate::setting::Setting;
use crate::target::{Target, Targets, wanted};

/// How fast an order moves the positions that it names. 0 counts as 1.
#[derive(Clone, Copy, Debug, PartialEq, Eq)]
pub struct Paces {
    /// Of zoom and focus.
    pub lens: u8,
    pub pan: u8,
    pub tilt: u8,
}

/// One to four different settings, each with the value that it is to get, and the paces.
#[derive(Clone, Copy, Debug, PartialEq, Eq)]
pub struct Order {
    pub targets: Targets,
    pub paces: Paces,
    ghost distinct: { different (parts targets) ≡ true },
}

// Whether no setting is named twice.
fn differ(targets: &[Target]) -> bool
    ensures { result ≡ different targets.now }
{
    match targets {
        [first, rest @ ..] => wanted(rest, first.setting).is_none() && differ(rest),
        [] => true,
    }
}

impl Order {
    ghost use Rattle.head.specs.Made.{made};
    ghost use Rattle.head.specs.Orders.{wants, any_pan_tilt, shares};

    /// An order of these targets; none if a setting is named twice.
    pub fn new(targets: Targets, paces: Paces) -> Option<Order>
        ensures { result ≡ made targets paces }
    {
        if differ(targets.as_slice()) {
            Some(Order { targets, paces })
        } else {
            None
        }
    }

    /// The value that the setting is to get, if the order names it.
    pub fn target(&self, setting: Setting) -> Option<i32>
        ensures { result ≡ wants (parts self.now.targets) setting }
    {
        self.targets.get(setting)
    }

    /// Whether the order names pan, tilt or one of their drives.
    pub fn needs_pan_tilt(&self) -> bool
        ensures { result ≡ any_pan_tilt (parts self.now.targets) }
    {
        self.targets.pan_or_tilt()
    }

    /// Whether some setting is named by both orders.
    pub fn shares_setting(&self, other: &Order) -> bool
        ensures { result ≡ shares (parts self.now.targets) (parts other.now.targets) }
    {
        self.targets.share_setting(&other.targets)
    }
}
