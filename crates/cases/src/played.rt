//! Lists of calls, played on an end over the wild head, and made on it one by one.

use crate::dealer::Dealer;
use crate::ranges::{GAPS, SPANS};
use crate::runs::calls_of;
use end::{Call, End, ROOM, bytes_sent, play};
use head::Look;
use std::process::Abort;
use std::test::Fail;
use wild::Wild;

// Every setting is in its range, as far as one who looks can tell.
fn in_range(rt: &impl Abort, head: &impl Look) {
    for (number, low, high) in SPANS {
        let value = head.look(number);
        assert!(rt; value.is_some_and(|value| low <= value && value <= high));
    }
    for (number, value) in GAPS {
        assert!(rt; head.look(number) != Some(value));
    }
}

// The sockets that the end tells are open are those that the dealer takes for open.
fn agree(rt: &impl Abort, end: &End<Wild>, dealer: &Dealer) {
    let open = end.open();
    assert_eq!(rt; open.one, dealer.one.is_some());
    assert_eq!(rt; open.two, dealer.two.is_some());
}

// Makes a call with a buffer as long as the log, or of 16 bytes if that is longer, has the dealer hear
// what it sends, and tells how much that was. It has to stand at the front of the log.
fn make_call(
    rt: &impl Abort,
    end: &mut End<Wild>,
    dealer: &mut Dealer,
    call: Call,
    log: &[u8],
) -> usize {
    let mut room = [0; ROOM];
    let out = &mut room[..log.len().min(ROOM)];
    let count = match call {
        Call::Byte(byte) => bytes_sent(end.byte(byte, out)),
        Call::Tick => bytes_sent(end.tick(out)),
        Call::Open => 0,
    };
    let sent = &room[..count.min(ROOM)];
    assert!(rt; log.starts_with(sent));
    if call == Call::Tick && log.len() >= ROOM {
        dealer.hear_tick(rt, sent);
    } else {
        dealer.hear(rt, sent);
    }
    agree(rt, end, dealer);
    in_range(rt, end.head());
    count
}

// Plays the calls on one head and makes them one by one on its like: the log is the same, and so are
// the sockets. Tells how many bytes were logged.
fn both_ways(
    rt: &impl Abort,
    seed: u32,
    pan_tilt: bool,
    calls: &[Call],
    log: &mut [u8],
    dealer: &mut Dealer,
) -> usize {
    dealer.turn();
    let (played, count) = play(Wild::new(seed, pan_tilt), calls, log);
    let mut end = End::make(Wild::new(seed, pan_tilt));
    let mut rest: &[u8] = log;
    let mut sent = 0;
    for call in calls {
        let n = make_call(rt, &mut end, dealer, *call, rest);
        rest = rest.get(n..).unwrap_or_default();
        sent = n.saturating_add(sent);
    }
    assert_eq!(rt; sent, count);
    assert!(rt; rest.iter().all(|byte| *byte == 7));
    agree(rt, &played, dealer);
    in_range(rt, played.head());
    count
}

#[test]
fn lists_of_calls(rt: HostRuntime) -> Result<(), Fail> {
    let mut dealer = Dealer::new();
    for seed in 0..50 {
        let calls = calls_of(rt.alloc(), seed)?;
        for pan_tilt in [false, true] {
            let mut long = [7; 8192];
            both_ways(
                &rt,
                seed,
                pan_tilt,
                calls.as_slice(),
                &mut long,
                &mut dealer,
            );
            let mut short = [7; 100];
            let count = both_ways(
                &rt,
                seed,
                pan_tilt,
                calls.as_slice(),
                &mut short,
                &mut dealer,
            );
            assert!(rt; count > 100 - ROOM, "no call was refused");
        }
    }
    // The runs saw enough of each.
    assert!(rt; dealer.opened >= 1000 && dealer.cancelled >= 100);
    assert!(rt; dealer.done >= 100 && dealer.jammed >= 100);
    assert!(rt; dealer.longest >= 900);
    Ok(())
}
