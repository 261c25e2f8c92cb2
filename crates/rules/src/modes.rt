//! What the modes forbid. A command goes by its row: the setting that its code stands for.

ghost use Rattle.std.specs.Prelude.{◌≡◌};
ghost use Rattle.head.specs.Settings.{number};
ghost use Rattle.rules.specs.Modes.{modes_of, forbids, powers_on as powers_on_by, forbidden_by};

use head::{Look, Order, Setting, value};

// Values of power and freeze.
const ON: i32 = 2;

const OFF: i32 = 3;

// Values of the focus mode and the exposure mode.
const MANUAL: i32 = 3;

const SHUTTER: i32 = 10;

const IRIS: i32 = 11;

const BRIGHT: i32 = 13;

// Of white balance, another number is manual.
const MANUAL_BALANCE: i32 = 5;

/// The settings that commands depend on: numbers, as a head has them, so that they stand in patterns.
#[derive(Clone, Copy, PartialEq, Eq, Debug)]
pub struct Modes {
    pub power: i32,
    pub focus: i32,
    pub white_balance: i32,
    pub exposure: i32,
    pub freeze: i32,
}

impl Modes {
    fn of<L: Look>(from: &L) -> Modes
        ensures { result ≡ modes_of (L.Look.setting from.now) }
    {
        Modes {
            power: value(from, Setting::Power),
            focus: value(from, Setting::FocusMode),
            white_balance: value(from, Setting::WhiteBalance),
            exposure: value(from, Setting::ExposureMode),
            freeze: value(from, Setting::Freeze),
        }
    }

    // Whether the modes forbid a command of this row. Rows go by number, since the rules of the modes do: with freeze
    // on, they speak of rows 6 to 13 at once.
    #[inline(always)]
    fn forbid(self, row: Setting, order: &Order) -> bool
        ensures { result ≡ forbids self (number row) order.now }
    {
        match (row.number(), self) {
            (1.., Modes { power: OFF, .. }) => true,
            (6..=13 | 16, Modes { freeze: ON, .. }) => true,
            (4 | 5, Modes { focus, .. }) if focus != MANUAL => true,
            (7 | 8, Modes { white_balance, .. }) if white_balance != MANUAL_BALANCE => true,
            (9, Modes { exposure, .. }) if matches!(exposure, MANUAL | IRIS) => {
                order.target(Setting::ExposureMode) == Some(BRIGHT)
            }
            (10, Modes { exposure, .. }) if !matches!(exposure, MANUAL | SHUTTER) => true,
            (11, Modes { exposure, .. }) if !matches!(exposure, MANUAL | IRIS) => true,
            (12, Modes { exposure, .. }) if exposure != MANUAL => true,
            (13, Modes { exposure, .. }) if exposure != BRIGHT => true,
            _ => false,
        }
    }
}

/// Whether the order switches power on. While it is open, every command is forbidden.
pub fn powers_on(order: &Order) -> bool
    ensures { result ≡ powers_on_by order.now }
{
    order.target(Setting::Power) == Some(ON)
}

/// Whether a command is not to be executed now: power is being switched on, a mode forbids it, or
/// it needs pan and tilt and there are none. Its row is the setting that its code stands for.
pub fn forbidden<L: Look>(from: &L, powering_on: bool, row: Setting, order: &Order) -> bool
    ensures { result ≡ forbidden_by (L.Look.setting from.now) (L.Look.pantilt from.now) powering_on row order.now }
{
    powering_on
        || Modes::of(from).forbid(row, order)
        || (!from.has_pan_tilt() && order.needs_pan_tilt())
}
