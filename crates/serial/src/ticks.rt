//! The ticks that the clock owes. A tick has a length, and what is left of one at a read stays owed to the next.

ghost use Rattle.std.specs.Prelude.{◌≡◌, if◌then◌else◌, Some, None};
ghost use Rattle.serial.specs.Lengths.{is_length};
ghost use Rattle.serial.specs.Ticks.{owed, paid_at};

use std::marker::Model;

/// How long a tick is, in milliseconds: from 1 to a minute.
#[derive(Clone, Copy, Debug, PartialEq, Eq)]
pub struct TickLength {
    millis: u32,
}

impl Model for TickLength {
    ghost use Rattle.std.specs.Prelude.{ℕ, ◌≡◌, true};
    ghost use Rattle.serial.specs.Lengths.{is_length};

    ghost Value = { ℕ };

    ghost view = { λ t. t.millis };

    ghost invariant = { λ t. is_length t.millis ≡ true };

    ghost inverse = { λ n. record { millis = n } };
}

impl TickLength {
    /// Fifty ticks a second.
    pub const USUAL: TickLength = TickLength { millis: 20 };

    /// So many milliseconds, if that is a length.
    pub fn new(millis: u32) -> Option<TickLength>
        ensures { result ≡ (if is_length millis then Some millis else None) }
    {
        if millis >= 1 && millis <= 60_000 {
            Some(TickLength { millis })
        } else {
            None
        }
    }
}

/// The most ticks that are owed at once: a second of them, at 50 a second.
pub const MOST_AT_ONCE: u32 = 50;

/// How long a tick is, and up to when ticks were paid, by a clock that counts milliseconds.
#[derive(Clone, Copy, Debug, PartialEq, Eq)]
pub struct Ticks {
    pub length: TickLength,
    pub paid: u64,
}

impl Ticks {
    /// How many ticks are owed now. They count as paid then, and so does time that is forgotten: all of it,
    /// where more ticks are due than are owed at once or where the clock went back.
    pub fn owed(&mut self, now: u64) -> u32
        ensures ticks { result ≡ owed self.old now }
        ensures paid { self.new ≡ paid_at self.old now }
    {
        let length = u64::from(self.length.millis);
        let due = now.saturating_sub(self.paid) / length;
        if now < self.paid || due > u64::from(MOST_AT_ONCE) {
            self.paid = now;
            return due.min(u64::from(MOST_AT_ONCE)) as u32;
        }
        self.paid += due * length;
        due as u32
    }
}
