//! The wild head alone: what it may do, it does.

use crate::orders::order_of;
use head::{Ending, Head, Look, Order, Paces, Refusal, Setting, Target, Targets};
use std::process::Abort;
use std::test::Fail;
use wild::Wild;

// How orders fared.
#[derive(Clone, Copy, Debug, PartialEq, Eq)]
struct Seen {
    done: u32,
    jammed: u32,
    // At the target before the last tick.
    early: u32,
    // At the target with the last tick and not before.
    late: u32,
    // Jammed though the position was at its target.
    for_nothing: u32,
}

fn to(setting: Setting, value: i32) -> Result<Order, Fail> {
    let paces = Paces {
        lens: 255,
        pan: 24,
        tilt: 20,
    };
    order_of(Targets::One([Target { setting, value }]), paces)
}

fn zoom(head: &Wild) -> i32 {
    head.look(Setting::Zoom.number()).unwrap_or(-1)
}

// Zooms a fresh head in, and follows it to the end of the order.
fn follow(rt: &impl Abort, head: &mut Wild, seen: &mut Seen) -> Result<(), Fail> {
    assert!(rt; head.start(1, &to(Setting::Zoom, 0x4000)?).is_ok());
    let ticks = head.ticks_left(1);
    assert!(rt; (1..=1000).contains(&ticks));
    let mut at = zoom(head);
    for n in 1..ticks {
        assert!(rt; head.tick().one.is_none());
        assert_eq!(rt; head.ticks_left(1), ticks - n);
        let now = zoom(head);
        assert!(rt; at <= now && now <= 0x4000);
        at = now;
    }
    let arrived = at == 0x4000;
    let ending = head.tick().one;
    assert_eq!(rt; head.ticks_left(1), 0);
    count(seen, ending == Some(Ending::Done), arrived);
    match ending {
        Some(Ending::Done) => assert_eq!(rt; zoom(head), 0x4000),
        Some(Ending::Jammed) => assert!(rt; at <= zoom(head) && zoom(head) <= 0x4000),
        None => assert!(rt; false, "it goes on with no tick left"),
    }
    Ok(())
}

fn count(seen: &mut Seen, done: bool, arrived: bool) {
    let one = |b: bool| u32::from(b);
    seen.done = seen.done.saturating_add(one(done));
    seen.jammed = seen.jammed.saturating_add(one(!done));
    seen.early = seen.early.saturating_add(one(arrived));
    seen.late = seen.late.saturating_add(one(done && !arrived));
    seen.for_nothing = seen.for_nothing.saturating_add(one(!done && arrived));
}

#[test]
fn it_does_all_that_it_may(rt: HostRuntime) -> Result<(), Fail> {
    let mut seen = Seen {
        done: 0,
        jammed: 0,
        early: 0,
        late: 0,
        for_nothing: 0,
    };
    for seed in 0..400 {
        let mut head = Wild::new(seed, seed % 2 == 0);
        follow(&rt, &mut head, &mut seen)?;
    }
    assert_eq!(rt; seen.done.saturating_add(seen.jammed), 400);
    assert!(rt; seen.done >= 100 && seen.jammed >= 100);
    assert!(rt; seen.early >= 100 && seen.late >= 30 && seen.for_nothing >= 100);
    Ok(())
}

#[test]
fn a_head_has_pan_and_tilt_or_not(rt: HostRuntime) -> Result<(), Fail> {
    let order = to(Setting::Pan, -5120)?;
    let mut with = Wild::new(1, true);
    let mut without = Wild::new(1, false);
    assert!(rt; with.has_pan_tilt() && !without.has_pan_tilt());
    assert_eq!(rt; with.start(2, &order), Ok(()));
    assert_eq!(rt; without.start(2, &order), Err(Refusal::NoPanTilt));
    assert_eq!(rt; with.start(1, &order), Err(Refusal::SettingInUse));
    with.drop_slot(2);
    assert_eq!(rt; with.ticks_left(2), 0);
    assert_eq!(rt; with.look(18), Some(0));
    Ok(())
}
