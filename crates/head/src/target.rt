//! The targets of an order: one to four settings, each with the value that it is to get.

ghost use Rattle.std.specs.Prelude.{◌≡◌, ◌≤◌, length};
ghost use Rattle.std.specs.List.{list_any};
ghost use Rattle.head.specs.Settings.{is_pan_tilt};
ghost use Rattle.head.specs.Orders.{parts, wants, names, all_in_range, any_pan_tilt, shares};

use crate::setting::Setting;

/// A setting and the value that it is to get.
#[derive(Clone, Copy, Debug, PartialEq, Eq)]
pub struct Target {
    pub setting: Setting,
    pub value: i32,
}

/// One to four targets.
#[derive(Clone, Copy, Debug, PartialEq, Eq)]
pub enum Targets {
    One([Target; 1]),
    Two([Target; 2]),
    Three([Target; 3]),
    Four([Target; 4]),
}

/// The value that the first of the targets for the setting gives it.
pub(crate) fn wanted(targets: &[Target], setting: Setting) -> Option<i32>
    ensures { result ≡ wants targets.now setting }
{
    targets
        .iter()
        .find(|t| t.setting == setting)
        .map(|t| t.value)
}

// Whether one of the targets is of pan, tilt or a drive of theirs. They are gone through once, and not once for each
// of the four, which took more than twice as long.
fn one_of_pan_tilt(targets: &[Target]) -> bool
    ensures { result ≡ list_any (λ t. is_pan_tilt t.setting) targets.now }
{
    targets.iter().any(|t| t.setting.is_pan_tilt())
}

impl Targets {
    /// The targets, first to last.
    pub fn as_slice(&self) -> &[Target]
        ensures is { result.now ≡ parts self.now }
        ensures some { 1 ≤ length result.now }
    {
        match self {
            Targets::One(targets) => targets,
            Targets::Two(targets) => targets,
            Targets::Three(targets) => targets,
            Targets::Four(targets) => targets,
        }
    }

    /// The value that the setting is to get, if it is named.
    pub(crate) fn get(&self, setting: Setting) -> Option<i32>
        ensures { result ≡ wants (parts self.now) setting }
    {
        wanted(self.as_slice(), setting)
    }

    // Whether the setting is named.
    fn names(&self, setting: Setting) -> bool
        ensures { result ≡ names (parts self.now) setting }
    {
        self.get(setting).is_some()
    }

    /// Whether every target is in the range of its setting.
    pub fn in_range(&self) -> bool
        ensures { result ≡ all_in_range (parts self.now) }
    {
        self.as_slice().iter().all(|t| t.setting.admits(t.value))
    }

    /// Whether pan, tilt or one of their drives is named.
    #[tactic(auto, using(crate::proofs::PanTilt::any_named))]
    pub(crate) fn pan_or_tilt(&self) -> bool
        ensures { result ≡ any_pan_tilt (parts self.now) }
    {
        one_of_pan_tilt(self.as_slice())
    }

    /// Whether some setting is named by both.
    pub(crate) fn share_setting(&self, other: &Targets) -> bool
        ensures { result ≡ shares (parts self.now) (parts other.now) }
    {
        self.as_slice().iter().any(|t| other.names(t.setting))
    }
}
