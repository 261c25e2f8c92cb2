//! What a table of constants holds, which has no clause of its own: statements that the check holds it to.

ghost use Rattle.std.specs.Prelude.{◌≡◌, length};
ghost use Rattle.head.specs.Settings.{all, axes};

use crate::setting::{Axis, Setting};

/// `Setting::ALL` has the settings by their numbers, and `Setting::COUNT` tells how many they are.
pub fn all_settings_are_listed()
    ensures listed { Setting.ALL ≡ all }
    ensures counted { Setting.COUNT ≡ length all }
{}

/// `Axis::ALL` has the axes by the numbers of their positions.
pub fn all_axes_are_listed()
    ensures { Axis.ALL ≡ axes }
{}
