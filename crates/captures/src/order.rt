//! Orders in words.

use crate::words::InWords;
use head::{Axis, Order, Paces, Setting, Target};
use std::fmt;

// What a value of a setting with a list is called. A value alone has no name: it depends on the setting.
fn value_name(setting: Setting, value: i32) -> &'static str {
    match (setting, value) {
        (Setting::FocusMode, 2) | (Setting::WhiteBalance, 0) => " (auto)",
        (Setting::FocusMode, 3) | (Setting::WhiteBalance, 5) | (Setting::ExposureMode, 3) => {
            " (manual)"
        }
        (Setting::Power | Setting::Freeze | Setting::Mute | Setting::Infrared, 2) => " (on)",
        (Setting::Power | Setting::Freeze | Setting::Mute | Setting::Infrared, 3) => " (off)",
        (Setting::WhiteBalance, 1) => " (indoor)",
        (Setting::WhiteBalance, 2) => " (outdoor)",
        (Setting::WhiteBalance, 3) => " (one push)",
        (Setting::ExposureMode, 0) => " (full auto)",
        (Setting::ExposureMode, 10) => " (shutter)",
        (Setting::ExposureMode, 11) => " (iris)",
        (Setting::ExposureMode, 13) => " (bright)",
        _ => "",
    }
}

// Whether the order moves the position whose drive this is: its drive to 0 then goes without saying.
fn goes_without_saying(order: &Order, setting: Setting) -> bool {
    Axis::ALL.into_iter().any(|axis| axis.drive() == setting
        && order.target(axis.position()).is_some())
}

impl fmt::Display for InWords<Target> {
    fn fmt<W: fmt::Write>(&self, f: &mut fmt::Formatter<W>) -> fmt::Result {
        let Target { setting, value } = self.0;
        let name = value_name(setting, value);
        write!(f, "{setting} to {value}{name}")
    }
}

impl fmt::Display for InWords<Paces> {
    fn fmt<W: fmt::Write>(&self, f: &mut fmt::Formatter<W>) -> fmt::Result {
        let Paces { lens, pan, tilt } = self.0;
        if lens > 0 {
            write!(f, " at lens pace {lens}")?;
        }
        if pan > 0 {
            write!(f, " at pan pace {pan}, tilt pace {tilt}")?;
        }
        Ok(())
    }
}

// An order in words: its targets and its paces.
impl fmt::Display for InWords<Order> {
    fn fmt<W: fmt::Write>(&self, f: &mut fmt::Formatter<W>) -> fmt::Result {
        let InWords(order) = self;
        let targets = Setting::ALL
            .into_iter()
            .filter(|setting| !goes_without_saying(order, *setting))
            .filter_map(|setting| Some(Target {
                setting,
                value: order.target(setting)?,
            }));
        for (place, target) in targets.enumerate() {
            let comma = if place == 0 { "" } else { ", " };
            write!(f, "{comma}{}", InWords(target))?;
        }
        InWords(order.paces).fmt(f)
    }
}
