//! Orders that a head turns down, with the number of the reason.

use crate::orders::order_of;
use head::{Head, Look, Order, Paces, Refusal, Setting, Target, Targets};
use heads::{Block, Dome};
use std::test::Fail;

fn paces() -> Paces {
    Paces {
        lens: 4,
        pan: 4,
        tilt: 4,
    }
}

fn to(setting: Setting, value: i32) -> Target {
    Target { setting, value }
}

// The table has the reasons by number, as docs/heads.md has them, so that the numbers are tried too;
// 0 is an order that was taken.
fn number(r: Result<(), Refusal>) -> u8 {
    r.map_or_else(Refusal::number, |()| 0)
}

// Orders in turn, each for a slot, and what a block and a dome answer. The first reason counts:
// the second row has a slot that there is not and a target out of range.
const ROWS: [(u8, Setting, i32, u8, u8); 9] = [
    (3, Setting::Zoom, 5, 1, 1),
    (0, Setting::Zoom, -5, 1, 1),
    (1, Setting::Zoom, 0x4001, 3, 3),
    (1, Setting::Pan, 5121, 3, 3),
    (1, Setting::Pan, 5120, 4, 0),
    (2, Setting::Pan, -5120, 4, 5),
    (2, Setting::WhiteBalance, 4, 3, 3),
    (2, Setting::WhiteBalance, 5, 0, 0),
    (2, Setting::Zoom, 0x4001, 2, 2),
];

#[test]
fn reasons(rt: HostRuntime) -> Result<(), Fail> {
    let mut block = Block::new();
    let mut dome = Dome::new(false);
    for (slot, setting, value, by_block, by_dome) in ROWS {
        let order = order_of(Targets::One([to(setting, value)]), paces())?;
        assert_eq!(rt; number(block.start(slot, &order)), by_block);
        assert_eq!(rt; number(dome.start(slot, &order)), by_dome);
    }
    assert!(rt; block.ticks_left(1) == 0 && block.ticks_left(2) == 1 && block.ticks_left(3) == 0);
    assert!(rt; dome.ticks_left(1) == 80 && dome.ticks_left(2) == 1 && dome.ticks_left(0) == 0);
    Ok(())
}

#[test]
fn a_setting_named_twice_is_no_order(rt: HostRuntime) {
    let (a, b, c) = (
        to(Setting::Pan, 1),
        to(Setting::Tilt, 2),
        to(Setting::Zoom, 3),
    );
    let again = to(Setting::Pan, 4);
    assert!(rt; Order::new(Targets::Two([a, again]), paces()).is_none());
    assert!(rt; Order::new(Targets::Three([a, b, again]), paces()).is_none());
    assert!(rt; Order::new(Targets::Four([b, a, c, again]), paces()).is_none());
    assert!(rt; Order::new(Targets::Three([a, b, c]), paces()).is_some());
}

#[test]
fn a_dropped_slot_moves_nothing(rt: HostRuntime) -> Result<(), Fail> {
    let mut dome = Dome::new(false);
    let order = order_of(Targets::One([to(Setting::Tilt, 100)]), paces())?;
    assert_eq!(rt; number(dome.start(2, &order)), 0);
    dome.drop_slot(1);
    dome.drop_slot(7);
    assert_eq!(rt; dome.ticks_left(2), 2);
    dome.drop_slot(2);
    assert_eq!(rt; dome.ticks_left(2), 0);
    let endings = dome.tick();
    assert!(rt; endings.one.is_none() && endings.two.is_none());
    assert_eq!(rt; dome.look(19), Some(0));
    Ok(())
}
