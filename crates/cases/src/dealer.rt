//! What a dealer makes of what a box with address 1 sends, who has no other way to look into it.

use std::process::Abort;

/// Each socket that is open by what was sent, with the ticks since its acknowledgement; and, over all
/// boxes that were listened to, how many commands came to what.
#[derive(Clone, Copy, Debug, PartialEq, Eq)]
pub struct Dealer {
    pub one: Option<u32>,
    pub two: Option<u32>,
    /// The most ticks that a socket was seen open.
    pub longest: u32,
    pub opened: u32,
    pub done: u32,
    pub jammed: u32,
    pub cancelled: u32,
    /// How often all was cleared.
    pub cleared: u32,
}

fn more(count: u32) -> u32 {
    count.saturating_add(1)
}

// An ending comes only of a socket that is open.
fn closed(rt: &impl Abort, socket: Option<u32>) -> Option<u32> {
    assert!(rt; socket.is_some(), "an ending of a closed socket");
    None
}

// An acknowledgement comes only of a socket that is closed.
fn opened(rt: &impl Abort, socket: Option<u32>) -> Option<u32> {
    assert!(rt; socket.is_none(), "an acknowledgement of an open socket");
    Some(0)
}

impl Dealer {
    /// Before anything was sent.
    pub fn new() -> Dealer {
        Dealer {
            one: None,
            two: None,
            longest: 0,
            opened: 0,
            done: 0,
            jammed: 0,
            cancelled: 0,
            cleared: 0,
        }
    }

    /// Turns to another box, freshly made.
    pub fn turn(&mut self) {
        self.one = None;
        self.two = None;
    }

    // A packet without its `FF`: an acknowledgement, an ending, a clearing, or of no concern.
    fn hear_packet(&mut self, rt: &impl Abort, packet: &[u8]) {
        match packet {
            [0x90, 0x41] => self.one = opened(rt, self.one),
            [0x90, 0x42] => self.two = opened(rt, self.two),
            [0x90, 0x51] | [0x90, 0x61, 0x04] | [0x90, 0x61, 0x41] => self.one = closed(
                rt, self.one,
            ),
            [0x90, 0x52] | [0x90, 0x62, 0x04] | [0x90, 0x62, 0x41] => self.two = closed(
                rt, self.two,
            ),
            [0x88, 0x30, 0x02] | [0x88, 0x01, 0x00, 0x01] | [0x90, 0x50] => self.turn(),
            _ => {}
        }
        match packet {
            [0x90, 0x41] | [0x90, 0x42] => self.opened = more(self.opened),
            [0x90, 0x51] | [0x90, 0x52] => self.done = more(self.done),
            [0x90, 0x61, 0x41] | [0x90, 0x62, 0x41] => self.jammed = more(self.jammed),
            [0x90, 0x61, 0x04] | [0x90, 0x62, 0x04] => self.cancelled = more(self.cancelled),
            [0x88, 0x30, 0x02] | [0x88, 0x01, 0x00, 0x01] | [0x90, 0x50] => {
                self.cleared = more(self.cleared)
            }
            _ => {}
        }
    }

    /// What a call sent: packets, one behind the other.
    pub fn hear(&mut self, rt: &impl Abort, sent: &[u8]) {
        for packet in sent.split(|byte| *byte == 0xff) {
            self.hear_packet(rt, packet);
        }
    }

    /// A tick that was accepted, and what it sent.
    pub fn hear_tick(&mut self, rt: &impl Abort, sent: &[u8]) {
        self.one = self.one.map(more);
        self.two = self.two.map(more);
        self.hear(rt, sent);
        let longest = self.one.unwrap_or(0).max(self.two.unwrap_or(0));
        assert!(rt; longest <= 999, "a socket is open over 999 ticks");
        self.longest = self.longest.max(longest);
    }
}
