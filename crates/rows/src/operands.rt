//! What stands behind a command's category and code, and what it says. Every byte counts, and every target must
//! be in range.

ghost use Rattle.std.specs.Prelude.{◌≡◌};
ghost use Rattle.rows.specs.Reading.{alone as alone_by, pushed as pushed_by, turning as turning_by};
ghost use Rattle.rows.specs.Reading.{lens_driven as driven_by, placed as placed_by, placed_at as placed_at_by};
ghost use Rattle.rows.specs.Reading.{pan_tilt_driven as pan_tilt_driven_by, pan_tilt as pan_tilt_by};
ghost use Rattle.rows.specs.Reading.{pan_tilt_placed as pan_tilt_placed_by, home as home_by};

use crate::command::{Command, LensPosition, PanTiltMove, STILL};
use crate::digits::{from_digit, from_digits, from_level, signed};
use crate::table::OperandForm;
use head::{Axis, Paces, Setting, Target};

/// Which way a drive's operands point.
#[derive(Clone, Copy, PartialEq, Eq, Debug)]
pub enum Sense {
    /// `02` and `2p` drive up.
    Up,
    /// `02` and `2p` drive down.
    Down,
}

/// What stands behind a command's category and code.
#[derive(Clone, Copy, Debug, PartialEq, Eq)]
pub enum Operands {
    /// `0p`: the setting to p.
    Digit,
    /// `00`, `02`, `03`, `2p`, `3p`: the drive to 0, 4, -4, p + 1 or -(p + 1), or the other way.
    LensDrive(Sense),
    /// Four digits: the position there and its drive to 0, at this lens pace.
    Position(Axis, u8),
    /// `0n` and four digits: the same, at lens pace n + 1.
    PositionAtSpeed(Axis),
    /// `00 00 0p 0q`: the setting to pq.
    Level,
    /// Four digits: the setting there.
    Number,
    /// `VV WW dd ee`: the drives of pan and tilt.
    PanTiltDrive,
    /// `VV WW`, four digits, four digits: pan and tilt there and their drives to 0.
    PanTiltPosition,
    /// Nothing: pan and tilt and their drives to 0.
    Home,
}

impl Sense {
    ghost use Rattle.rows.specs.Reading.{turned as turned_by, steered as steered_by};

    // A drive that points up, or the other way.
    fn turned(self, drive: i16) -> i32
        ensures { result ≡ turned_by self drive }
    {
        match self {
            Sense::Up => i32::from(drive),
            Sense::Down => -i32::from(drive),
        }
    }

    // 01 down, 02 up, 03 stop; or the other way.
    fn steered(self, d: u8, pace: u8) -> Option<i32>
        ensures { result ≡ steered_by self d pace }
    {
        match d {
            0x01 => Some(self.turned(-i16::from(pace))),
            0x02 => Some(self.turned(i16::from(pace))),
            0x03 => Some(0),
            _ => None,
        }
    }
}

// A setting alone, to get this value.
fn alone(setting: Setting, value: i32) -> Option<Command>
    ensures { result ≡ alone_by setting value }
{
    Command::Set(Target { setting, value }).ranged()
}

// What a drive's operand asks for, where up is up.
fn pushed(b: u8) -> Option<i16>
    ensures { result ≡ pushed_by b }
{
    match b {
        0x00 => Some(0),
        0x02 => Some(4),
        0x03 => Some(-4),
        0x20..=0x27 => Some(i16::from(b - 0x20) + 1),
        0x30..=0x37 => Some(-i16::from(b - 0x30) - 1),
        _ => None,
    }
}

#[inline(always)]
fn driven(sense: Sense, setting: Setting, b: u8) -> Option<Command>
    ensures { result ≡ driven_by sense setting b }
{
    alone(setting, sense.turned(pushed(b)?))
}

#[inline(always)]
fn placed(axis: Axis, lens: u8, digits: [u8; 4]) -> Option<Command>
    ensures { result ≡ placed_by axis lens digits }
{
    let position = i32::from(from_digits(digits)?);
    Command::Position(LensPosition {
        axis,
        lens,
        position,
    })
    .ranged()
}

#[inline(always)]
fn placed_at(axis: Axis, n: u8, digits: [u8; 4]) -> Option<Command>
    ensures { result ≡ placed_at_by axis n digits }
{
    match n {
        0..=7 => placed(axis, n + 1, digits),
        _ => None,
    }
}

// The paces of pan and tilt.
fn turning(v: u8, w: u8) -> Option<Paces>
    ensures { result ≡ turning_by v w }
{
    match (v, w) {
        (1..=0x18, 1..=0x14) => Some(Paces {
            pan: v,
            tilt: w,
            ..STILL
        }),
        _ => None,
    }
}

#[inline(always)]
fn pan_tilt_driven(paces: Paces, d: u8, e: u8) -> Option<Command>
    ensures { result ≡ pan_tilt_driven_by paces d e }
{
    let pan = Sense::Up.steered(d, paces.pan)?;
    let tilt = Sense::Down.steered(e, paces.tilt)?;
    Command::PanTiltDrive(PanTiltMove { pan, tilt, paces }).ranged()
}

#[inline(always)]
fn pan_tilt(paces: Paces, pan: i32, tilt: i32) -> Option<Command>
    ensures { result ≡ pan_tilt_by paces pan tilt }
{
    Command::PanTiltPosition(PanTiltMove { pan, tilt, paces }).ranged()
}

#[inline(always)]
fn pan_tilt_placed(paces: Paces, x: [u8; 4], y: [u8; 4]) -> Option<Command>
    ensures { result ≡ pan_tilt_placed_by paces x y }
{
    pan_tilt(paces, signed(from_digits(x)?), signed(from_digits(y)?))
}

fn home() -> Option<Command>
    ensures { result ≡ home_by }
{
    let paces = Paces {
        pan: 24,
        tilt: 20,
        ..STILL
    };
    pan_tilt(paces, 0, 0)
}

impl OperandForm for Operands {
    ghost use Rattle.rows.specs.Reading.{reads};

    type Meaning = Command;

    ghost makes = { reads };

    #[inline(always)]
    fn read(&self, setting: Setting, operands: &[u8]) -> Option<Command> {
        match (*self, operands) {
            (Operands::Digit, &[p]) => alone(setting, i32::from(from_digit(p)?)),
            (Operands::LensDrive(sense), &[b]) => driven(sense, setting, b),
            (Operands::Position(axis, lens), &[p, q, r, s]) => placed(axis, lens, [p, q, r, s]),
            (Operands::PositionAtSpeed(axis), &[n, p, q, r, s]) => placed_at(axis, n, [p, q, r, s]),
            (Operands::Level, &[y, z, p, q]) => alone(
                setting,
                i32::from(from_level([y, z, p, q])?),
            ),
            (Operands::Number, &[p, q, r, s]) => alone(
                setting,
                i32::from(from_digits([p, q, r, s])?),
            ),
            (Operands::PanTiltDrive, &[v, w, d, e]) => pan_tilt_driven(turning(v, w)?, d, e),
            (Operands::PanTiltPosition, &[v, w, a, b, c, d, e, f, g, h]) => {
                pan_tilt_placed(turning(v, w)?, [a, b, c, d], [e, f, g, h])
            }
            (Operands::Home, []) => home(),
            _ => None,
        }
    }
}
