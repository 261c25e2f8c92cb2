//! A head that counts what it is told.

use head::{Endings, Head, Look, Order, Refusal};

/// How often a head was told what.
#[derive(Clone, Copy, Debug, PartialEq, Eq)]
pub struct Counts {
    /// Orders that it took.
    pub taken: u32,
    /// Orders that it turned down.
    pub refused: u32,
    pub ticks: u32,
    pub drops: u32,
}

/// Any head, and how often it was told what. It passes every call on.
#[derive(Drop)]
pub struct Counting<H: Head> {
    head: H,
    counts: Counts,
}

fn more(count: u32) -> u32 {
    count.saturating_add(1)
}

impl<H: Head> Counting<H> {
    /// A head that was told nothing yet.
    pub fn new(head: H) -> Counting<H> {
        let counts = Counts {
            taken: 0,
            refused: 0,
            ticks: 0,
            drops: 0,
        };
        Counting { head, counts }
    }

    /// What it was told so far.
    pub fn counts(&self) -> Counts {
        self.counts
    }
}

impl<H: Head> Look for Counting<H> {
    ghost setting = { λ c. H.Look.setting c.head };

    ghost pantilt = { λ c. H.Look.pantilt c.head };

    ghost ranged = { λ c. H.Look.ranged c.head };

    fn look(&self, number: u8) -> Option<i32> {
        self.head.look(number)
    }

    fn has_pan_tilt(&self) -> bool {
        self.head.has_pan_tilt()
    }
}

impl<H: Head> Head for Counting<H> {
    ghost slots = { λ c. H.Head.slots c.head };

    ghost started = { λ c y o r d. H.Head.started c.head y o r d.head };

    ghost ticked = { λ c e d. H.Head.ticked c.head e d.head };

    ghost dropped = { λ c y d. H.Head.dropped c.head y d.head };

    ghost timed = { λ c. H.Head.timed c.head };

    ghost start_means = { λ c y o r d. H.Head.start_means c.head y o r d.head };

    ghost tick_means = { λ c e d. H.Head.tick_means c.head e d.head };

    ghost drop_means = { λ c y d. H.Head.drop_means c.head y d.head };

    fn ticks_left(&self, slot: u8) -> u16 {
        self.head.ticks_left(slot)
    }

    fn start(&mut self, slot: u8, order: &Order) -> Result<(), Refusal> {
        let answer = self.head.start(slot, order);
        match answer {
            Ok(()) => self.counts.taken = more(self.counts.taken),
            Err(_) => self.counts.refused = more(self.counts.refused),
        }
        answer
    }

    fn tick(&mut self) -> Endings {
        self.counts.ticks = more(self.counts.ticks);
        self.head.tick()
    }

    fn drop_slot(&mut self, slot: u8) {
        self.counts.drops = more(self.counts.drops);
        self.head.drop_slot(slot)
    }
}
