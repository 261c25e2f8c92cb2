//! The values of all settings, each in its range.

ghost use Rattle.std.specs.Prelude.{◌≡◌, true};
ghost use Rattle.head.specs.declared.setting.Setting.{Setting as S};
ghost use Rattle.head.specs.Settings.{in_range, value_in};

use crate::setting::Setting;
use std::error::Error;
use std::fmt;

/// A value that its setting may not have.
#[derive(Clone, Copy, Debug, PartialEq, Eq)]
pub struct OutOfRange;

impl fmt::Display for OutOfRange {
    fn fmt<W: fmt::Write>(&self, f: &mut fmt::Formatter<W>) -> fmt::Result {
        f.write_str("the value is out of the range of its setting")
    }
}

impl Error for OutOfRange {}

/// A setting and a value of its range; no value of this type is otherwise.
#[derive(Clone, Copy, Debug, PartialEq, Eq)]
pub struct Admitted {
    pub setting: Setting,
    pub value: i32,
    ghost fits: { in_range setting value ≡ true },
}

/// A value in range for each setting.
#[derive(Clone, Copy, Debug, PartialEq, Eq)]
pub struct Settings {
    // By number, and no map: a map allocates, and no call on a head may fail for want of memory.
    values: [i32; Setting::COUNT],
    ghost ranged: { (s : S) → in_range s (value_in values s) ≡ true },
}

impl Settings {
    ghost use Rattle.std.specs.Prelude.{◌&&◌, if◌then◌else◌, is_ok, OnErr};
    ghost use Rattle.head.specs.Settings.{about, same, looked};
    ghost use Rattle.head.specs.Values.{value_of};

    /// The values with which our heads are made: power on, focus auto, freeze, mute and infrared
    /// off, and 0 elsewhere.
    pub fn new() -> Settings
        ensures { (s : S) → value_of result s ≡ (about s).first }
    {
        Settings {
            values: Setting::ALL.map(Setting::first),
        }
    }

    /// The value of a setting.
    pub fn get(&self, setting: Setting) -> i32
        ensures { result ≡ value_of self.now setting }
    {
        let n = usize::from(setting.number());
        self.values[n]
    }

    /// The value of the setting with this number, if there is one.
    pub fn look(&self, number: u8) -> Option<i32>
        ensures { result ≡ looked (value_of self.now) number }
    {
        Setting::try_from(number)
            .ok()
            .map(|setting| self.get(setting))
    }

    /// Gives a setting a value of its range; a value out of it is refused, and changes nothing.
    pub fn set(&mut self, setting: Setting, value: i32) -> Result<(), OutOfRange>
        ensures taken { is_ok result ≡ in_range setting value }
        ensures values { (s : S) → value_of self.new s
            ≡ (if is_ok result && same s setting then value else value_of self.old s) }
        ensures refused { OnErr result (self.new ≡ self.old) }
    {
        if !setting.admits(value) {
            return Err(OutOfRange);
        }
        self.put(Admitted { setting, value });
        Ok(())
    }

    /// Gives a setting a value that it is known to admit.
    pub fn put(&mut self, admitted: Admitted)
        ensures { (s : S) → value_of self.new s
            ≡ (if same s admitted.setting then admitted.value else value_of self.old s) }
    {
        let at = usize::from(admitted.setting.number());
        self.values[at] = admitted.value;
    }
}
