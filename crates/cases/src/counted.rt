//! What a head is told, by lists of calls on an end over it: just what the rules say, and each call once.

use crate::counting::{Counting, Counts};
use crate::dealer::Dealer;
use crate::runs::calls_of;
use end::{Call, End, ROOM, bytes_sent};
use std::process::Abort;
use std::test::Fail;
use wild::{Dice, Wild};

// What the head of an end that was made is told, by the rules: a tick for each that the end accepted; the slots of
// both dropped at making, and at each clearing; the slot of each command that was cancelled or displaced dropped; an order
// for each acknowledgement, and none that it turns down.
fn due(dealer: &Dealer, ticks: u32) -> Counts {
    Counts {
        taken: dealer.opened,
        refused: 0,
        ticks,
        drops: dealer
            .cleared
            .saturating_mul(2)
            .saturating_add(dealer.cancelled)
            .saturating_add(2),
    }
}

// Makes a call with a buffer of that length and has the dealer hear what it sends. Tells whether it was a tick that
// the end accepted.
fn make_call(
    rt: &impl Abort,
    end: &mut End<Counting<Wild>>,
    dealer: &mut Dealer,
    call: Call,
    room: usize,
) -> bool {
    let mut buffer = [0; ROOM];
    let out = &mut buffer[..room.min(ROOM)];
    let count = match call {
        Call::Byte(byte) => bytes_sent(end.byte(byte, out)),
        Call::Tick => bytes_sent(end.tick(out)),
        Call::Open => 0,
    };
    let sent = &buffer[..count.min(ROOM)];
    let ticked = call == Call::Tick && room >= ROOM;
    if ticked {
        dealer.hear_tick(rt, sent);
    } else {
        dealer.hear(rt, sent);
    }
    ticked
}

// Makes the calls on an end over a head that counts, now and then one with a buffer that is too short, and compares
// the counts after each.
fn count_calls(rt: &impl Abort, seed: u32, pan_tilt: bool, calls: &[Call], seen: &mut Dealer) {
    let mut dice = Dice::new(seed);
    let mut dealer = Dealer::new();
    let mut ticks: u32 = 0;
    let mut end = End::make(Counting::new(Wild::new(seed, pan_tilt)));
    assert_eq!(rt; end.head().counts(), due(&dealer, 0));
    for call in calls {
        let room = if dice.roll(50) == 0 { ROOM - 1 } else { ROOM };
        if make_call(rt, &mut end, &mut dealer, *call, room) {
            ticks = ticks.saturating_add(1);
        }
        assert_eq!(rt; end.head().counts(), due(&dealer, ticks));
    }
    let told = due(&dealer, ticks);
    let drops = told.drops.saturating_add(2);
    assert_eq!(rt; end.take_off().counts(), Counts { drops, ..told });
    seen.opened = seen.opened.saturating_add(dealer.opened);
    seen.cancelled = seen.cancelled.saturating_add(dealer.cancelled);
    seen.cleared = seen.cleared.saturating_add(dealer.cleared);
}

#[test]
fn a_head_is_told_just_what_the_rules_say(rt: HostRuntime) -> Result<(), Fail> {
    let mut seen = Dealer::new();
    for seed in 0..50 {
        let calls = calls_of(rt.alloc(), seed)?;
        for pan_tilt in [false, true] {
            count_calls(&rt, seed, pan_tilt, calls.as_slice(), &mut seen);
        }
    }
    // The runs saw enough of each.
    assert!(rt; seen.opened >= 500 && seen.cancelled >= 50 && seen.cleared >= 100);
    Ok(())
}
