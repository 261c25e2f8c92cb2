//! Every setting at the ends of its range and one past them.

use head::{NoSuchSetting, Setting};
use std::test::Fail;

// A setting's number, its lowest and its highest value.
pub const SPANS: [(u8, i32, i32); Setting::COUNT] = [
    (0, 2, 3),
    (1, 0, 0x4000),
    (2, -8, 8),
    (3, 2, 3),
    (4, 0, 0xffff),
    (5, -8, 8),
    (6, 0, 5),
    (7, 0, 255),
    (8, 0, 255),
    (9, 0, 13),
    (10, 0, 255),
    (11, 0, 255),
    (12, 0, 255),
    (13, 0, 255),
    (14, 2, 3),
    (15, 2, 3),
    (16, 2, 3),
    (17, 0, 0xffff),
    (18, -5120, 5120),
    (19, -1280, 1280),
    (20, -24, 24),
    (21, -20, 20),
];

// Values inside the span of a setting with a list that are not on the list.
pub const GAPS: [(u8, i32); 6] = [(6, 4), (9, 1), (9, 2), (9, 4), (9, 9), (9, 12)];

#[test]
fn spans(rt: HostRuntime) -> Result<(), Fail> {
    for (number, low, high) in SPANS {
        let setting = Setting::try_from(number)?;
        assert_eq!(rt; setting.number(), number);
        assert!(rt; setting.admits(low) && setting.admits(high));
        assert!(rt; !setting.admits(low.saturating_sub(1)));
        assert!(rt; !setting.admits(high.saturating_add(1)));
    }
    Ok(())
}

#[test]
fn gaps(rt: HostRuntime) -> Result<(), Fail> {
    for (number, value) in GAPS {
        let setting = Setting::try_from(number)?;
        assert!(rt; !setting.admits(value));
    }
    for number in [Setting::COUNT as u8, 255] {
        assert_eq!(rt; Setting::try_from(number), Err(NoSuchSetting(number)));
    }
    Ok(())
}
