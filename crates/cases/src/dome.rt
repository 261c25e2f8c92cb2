//! Where a dome's positions are, tick by tick.

use crate::orders::order_of;
use head::{Ending, Head, Look, Paces, Setting, Target, Targets};
use heads::Dome;
use std::test::Fail;

// A target, the pace for it, the ticks it takes, and the position after the first of them.
const MOVES: [(Setting, i32, u8, u16, i32); 9] = [
    (Setting::Zoom, 0x4000, 4, 32, 512),
    (Setting::Zoom, 513, 4, 2, 512),
    (Setting::Zoom, 512, 4, 1, 512),
    (Setting::Zoom, 0, 4, 1, 0),
    (Setting::Focus, 0xffff, 0, 512, 128),
    (Setting::Focus, 0xffff, 255, 3, 32640),
    (Setting::Pan, -5120, 1, 320, -16),
    (Setting::Pan, -5120, 24, 14, -384),
    (Setting::Tilt, 1280, 20, 4, 320),
];

#[test]
fn steps(rt: HostRuntime) -> Result<(), Fail> {
    for (setting, target, pace, ticks, first) in MOVES {
        let mut dome = Dome::new(false);
        let paces = Paces {
            lens: pace,
            pan: pace,
            tilt: pace,
        };
        let targets = Targets::One([Target {
            setting,
            value: target,
        }]);
        let order = order_of(targets, paces)?;
        assert!(rt; dome.start(1, &order).is_ok());
        assert_eq!(rt; dome.ticks_left(1), ticks);
        let mut last = dome.tick();
        assert_eq!(rt; dome.look(setting.number()), Some(first));
        for _ in 1..ticks {
            assert!(rt; last.one.is_none());
            last = dome.tick();
        }
        assert_eq!(rt; last.one, Some(Ending::Done));
        assert_eq!(rt; dome.look(setting.number()), Some(target));
    }
    Ok(())
}

// A drive, its position, and where a tick of it takes the position, held to its range.
const DRIVES: [(Setting, i32, Setting, i32); 6] = [
    (Setting::ZoomDrive, 8, Setting::Zoom, 1024),
    (Setting::ZoomDrive, -8, Setting::Zoom, 0),
    (Setting::FocusDrive, 1, Setting::Focus, 128),
    (Setting::PanDrive, -24, Setting::Pan, -384),
    (Setting::TiltDrive, 20, Setting::Tilt, 320),
    (Setting::TiltDrive, 0, Setting::Tilt, 0),
];

#[test]
fn drives(rt: HostRuntime) -> Result<(), Fail> {
    for (drive, value, position, moved) in DRIVES {
        let paces = Paces {
            lens: 0,
            pan: 0,
            tilt: 0,
        };
        let targets = Targets::One([Target {
            setting: drive,
            value,
        }]);
        let order = order_of(targets, paces)?;
        let mut dome = Dome::new(false);
        let mut stalled = Dome::new(true);
        assert!(rt; dome.start(2, &order).is_ok() && stalled.start(2, &order).is_ok());
        // The drive has its value once the order is done, and moves from the next tick on.
        assert_eq!(rt; dome.tick().two, Some(Ending::Done));
        assert_eq!(rt; stalled.tick().two, Some(Ending::Done));
        assert_eq!(rt; dome.look(position.number()), Some(0));
        dome.tick();
        stalled.tick();
        assert_eq!(rt; dome.look(position.number()), Some(moved));
        assert_eq!(rt; stalled.look(position.number()), Some(0));
    }
    Ok(())
}

#[test]
fn a_stalled_dome_jams(rt: HostRuntime) -> Result<(), Fail> {
    let paces = Paces {
        lens: 8,
        pan: 0,
        tilt: 0,
    };
    let zoom = Target {
        setting: Setting::Zoom,
        value: 1025,
    };
    let mute = Target {
        setting: Setting::Mute,
        value: 2,
    };
    let order = order_of(Targets::Two([zoom, mute]), paces)?;
    let mut dome = Dome::new(true);
    assert!(rt; dome.start(1, &order).is_ok());
    assert!(rt; dome.tick().one.is_none());
    assert_eq!(rt; dome.tick().one, Some(Ending::Jammed));
    assert!(rt; dome.look(1) == Some(0) && dome.look(15) == Some(3));
    let home = Target {
        setting: Setting::Zoom,
        value: 0,
    };
    let order = order_of(Targets::Two([home, mute]), paces)?;
    assert!(rt; dome.start(1, &order).is_ok());
    assert_eq!(rt; dome.tick().one, Some(Ending::Done));
    assert_eq!(rt; dome.look(15), Some(2));
    Ok(())
}
