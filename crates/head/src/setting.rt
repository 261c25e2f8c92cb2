//! The settings of a head by name and by number, the values that each may have, and the four axes among them.

ghost use Rattle.std.specs.Prelude.{◌≡◌};

use std::error::Error;
use std::fmt;

/// A setting. They stand in the order of their numbers, from 0.
#[derive(Clone, Copy, Debug, PartialEq, Eq, PartialOrd, Ord, Hash)]
pub enum Setting {
    Power,
    Zoom,
    ZoomDrive,
    FocusMode,
    Focus,
    FocusDrive,
    WhiteBalance,
    RedGain,
    BlueGain,
    ExposureMode,
    Shutter,
    Iris,
    Gain,
    Bright,
    Freeze,
    Mute,
    Infrared,
    Identity,
    Pan,
    Tilt,
    PanDrive,
    TiltDrive,
}

impl Setting {
    ghost use Rattle.std.specs.Prelude.{◌<◌, length, is_some};
    ghost use Rattle.head.specs.Settings.{about, all, number as number_of, in_range, is_pan_tilt};

    /// How many settings there are.
    pub const COUNT: usize = 22;

    /// The settings by number.
    pub const ALL: [Setting; Setting::COUNT] = [
        Setting::Power,
        Setting::Zoom,
        Setting::ZoomDrive,
        Setting::FocusMode,
        Setting::Focus,
        Setting::FocusDrive,
        Setting::WhiteBalance,
        Setting::RedGain,
        Setting::BlueGain,
        Setting::ExposureMode,
        Setting::Shutter,
        Setting::Iris,
        Setting::Gain,
        Setting::Bright,
        Setting::Freeze,
        Setting::Mute,
        Setting::Infrared,
        Setting::Identity,
        Setting::Pan,
        Setting::Tilt,
        Setting::PanDrive,
        Setting::TiltDrive,
    ];

    /// The setting's number, 0 or more and below `Setting::COUNT`.
    pub fn number(self) -> u8
        ensures is { result ≡ number_of self }
        ensures below { result < length all }
    {
        self as u8
    }

    /// The values that the setting may have.
    pub fn range(self) -> Range
        ensures { result ≡ (about self).range }
    {
        match self {
            Setting::Power
            | Setting::FocusMode
            | Setting::Freeze
            | Setting::Mute
            | Setting::Infrared => Range::Switch,
            Setting::Zoom => Range::Span(0, 0x4000),
            Setting::ZoomDrive | Setting::FocusDrive => Range::Span(-8, 8),
            Setting::Focus | Setting::Identity => Range::Span(0, 0xffff),
            Setting::WhiteBalance => Range::WhiteBalance,
            Setting::RedGain
            | Setting::BlueGain
            | Setting::Shutter
            | Setting::Iris
            | Setting::Gain
            | Setting::Bright => Range::Span(0, 255),
            Setting::ExposureMode => Range::Exposure,
            Setting::Pan => Range::Span(-5120, 5120),
            Setting::Tilt => Range::Span(-1280, 1280),
            Setting::PanDrive => Range::Span(-24, 24),
            Setting::TiltDrive => Range::Span(-20, 20),
        }
    }

    /// Whether the setting may have this value.
    #[tactic(auto, unfolding(crate::specs::Settings::in_range))]
    pub fn admits(self, value: i32) -> bool
        ensures { result ≡ in_range self value }
    {
        self.range().contains(value)
    }

    /// The value with which our heads are made.
    pub(crate) fn first(self) -> i32
        ensures { result ≡ (about self).first }
    {
        match self {
            Setting::Power | Setting::FocusMode => 2,
            Setting::Freeze | Setting::Mute | Setting::Infrared => 3,
            _ => 0,
        }
    }

    /// Whether this is the position of an axis.
    pub fn is_position(self) -> bool
        ensures { result ≡ is_some (about self).axis }
    {
        self == Setting::Zoom
            || self == Setting::Focus
            || self == Setting::Pan
            || self == Setting::Tilt
    }

    /// Whether this is pan, tilt or a drive of theirs.
    pub(crate) fn is_pan_tilt(self) -> bool
        ensures { result ≡ is_pan_tilt self }
    {
        matches!(
            self,
            Setting::Pan | Setting::Tilt | Setting::PanDrive | Setting::TiltDrive
        )
    }

    /// The axis whose position this is.
    pub fn axis(self) -> Option<Axis>
        ensures { result ≡ (about self).axis }
    {
        match self {
            Setting::Zoom => Some(Axis::Zoom),
            Setting::Focus => Some(Axis::Focus),
            Setting::Pan => Some(Axis::Pan),
            Setting::Tilt => Some(Axis::Tilt),
            _ => None,
        }
    }
}

impl fmt::Display for Setting {
    fn fmt<W: fmt::Write>(&self, f: &mut fmt::Formatter<W>) -> fmt::Result {
        f.write_str(match *self {
            Setting::Power => "power",
            Setting::Zoom => "zoom",
            Setting::ZoomDrive => "zoom drive",
            Setting::FocusMode => "focus mode",
            Setting::Focus => "focus",
            Setting::FocusDrive => "focus drive",
            Setting::WhiteBalance => "white balance",
            Setting::RedGain => "red gain",
            Setting::BlueGain => "blue gain",
            Setting::ExposureMode => "exposure mode",
            Setting::Shutter => "shutter",
            Setting::Iris => "iris",
            Setting::Gain => "gain",
            Setting::Bright => "bright",
            Setting::Freeze => "freeze",
            Setting::Mute => "mute",
            Setting::Infrared => "infrared",
            Setting::Identity => "identity",
            Setting::Pan => "pan",
            Setting::Tilt => "tilt",
            Setting::PanDrive => "pan drive",
            Setting::TiltDrive => "tilt drive",
        })
    }
}

/// A number that no setting has.
#[derive(Clone, Copy, Debug, PartialEq, Eq)]
pub struct NoSuchSetting(pub u8);

impl TryFrom<u8> for Setting {
    ghost use Rattle.std.specs.Option.{ok_or};
    ghost use Rattle.head.specs.Settings.{numbered};

    type Error = NoSuchSetting;

    ghost try_from_gives = { λ n r. r ≡ ok_or (numbered n) (record { 0 = n }) };

    /// The setting with this number; `Setting::COUNT` and whatever is above it are no setting's.
    fn try_from(number: u8) -> Result<Setting, NoSuchSetting> {
        Setting::ALL
            .get(usize::from(number))
            .copied()
            .ok_or(NoSuchSetting(number))
    }
}

impl fmt::Display for NoSuchSetting {
    fn fmt<W: fmt::Write>(&self, f: &mut fmt::Formatter<W>) -> fmt::Result {
        write!(f, "no setting has number {}", self.0)
    }
}

impl Error for NoSuchSetting {}

/// The values that a setting may have.
#[derive(Clone, Copy, Debug, PartialEq, Eq)]
pub enum Range {
    /// 2 on, 3 off; of the focus mode, 2 auto and 3 manual.
    Switch,
    /// 0 auto, 1 indoor, 2 outdoor, 3 one push, 5 manual.
    WhiteBalance,
    /// 0 full auto, 3 manual, 10 shutter, 11 iris, 13 bright.
    Exposure,
    /// From the first number to the second, both included.
    Span(i32, i32),
}

impl Range {
    ghost use Rattle.head.specs.Settings.{within};

    // Whether the value is one of the range.
    fn contains(self, value: i32) -> bool
        ensures { result ≡ within self value }
    {
        match self {
            Range::Switch => matches!(value, 2 | 3),
            Range::WhiteBalance => matches!(value, 0 | 1 | 2 | 3 | 5),
            Range::Exposure => matches!(value, 0 | 3 | 10 | 11 | 13),
            Range::Span(low, high) => (low..=high).contains(&value),
        }
    }
}

/// What moves: an axis has a position and a drive, each a setting.
#[derive(Clone, Copy, Debug, PartialEq, Eq, PartialOrd, Ord, Hash)]
pub enum Axis {
    Zoom,
    Focus,
    Pan,
    Tilt,
}

impl Axis {
    ghost use Rattle.head.specs.Settings.{position as position_of, drive as drive_of};

    /// The axes by the numbers of their positions.
    pub const ALL: [Axis; 4] = [Axis::Zoom, Axis::Focus, Axis::Pan, Axis::Tilt];

    /// The setting that tells where the axis stands.
    pub fn position(self) -> Setting
        ensures { result ≡ position_of self }
    {
        match self {
            Axis::Zoom => Setting::Zoom,
            Axis::Focus => Setting::Focus,
            Axis::Pan => Setting::Pan,
            Axis::Tilt => Setting::Tilt,
        }
    }

    /// The setting that tells how fast, and which way, the axis is driven.
    pub fn drive(self) -> Setting
        ensures { result ≡ drive_of self }
    {
        match self {
            Axis::Zoom => Setting::ZoomDrive,
            Axis::Focus => Setting::FocusDrive,
            Axis::Pan => Setting::PanDrive,
            Axis::Tilt => Setting::TiltDrive,
        }
    }
}
