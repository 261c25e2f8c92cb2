//! The codes of rows, and the settings that they stand for.

ghost use Rattle.std.specs.Prelude.{◌≡◌};
ghost use Rattle.rows.specs.Codes.{coded as coded_by};

use head::Setting;

/// Which codes a row has.
#[derive(Clone, Copy, Debug, PartialEq, Eq)]
pub enum Codes {
    /// One code, for one setting.
    One(u8, Setting),
    /// The settings of one digit: focus mode, white balance, exposure mode, freeze, mute, infrared.
    Modes,
    /// The settings of two digits: red gain, blue gain, shutter, iris, gain, bright.
    Levels,
}

const MODES: [(u8, Setting); 6] = [
    (0x38, Setting::FocusMode),
    (0x35, Setting::WhiteBalance),
    (0x39, Setting::ExposureMode),
    (0x62, Setting::Freeze),
    (0x75, Setting::Mute),
    (0x01, Setting::Infrared),
];

const LEVELS: [(u8, Setting); 6] = [
    (0x43, Setting::RedGain),
    (0x44, Setting::BlueGain),
    (0x4a, Setting::Shutter),
    (0x4b, Setting::Iris),
    (0x4c, Setting::Gain),
    (0x4d, Setting::Bright),
];

// The setting that stands beside a code.
fn coded(pairs: &[(u8, Setting)], code: u8) -> Option<Setting>
    ensures { result ≡ coded_by pairs.now code }
{
    pairs.iter().find(|pair| code == pair.0).map(|pair| pair.1)
}

impl Codes {
    ghost use Rattle.rows.specs.Codes.{setting_of};

    /// The setting that a code stands for, if it is one of these.
    pub(crate) fn setting(self, code: u8) -> Option<Setting>
        ensures { result ≡ setting_of self code }
    {
        match self {
            Codes::One(one, setting) => coded(&[(one, setting)], code),
            Codes::Modes => coded(&MODES, code),
            Codes::Levels => coded(&LEVELS, code),
        }
    }
}
