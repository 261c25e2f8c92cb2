//! A head is something that can be looked at and, beyond that, ordered.
//!
//! Ghost members tell what an implementation means: its settings, whether it has pan and tilt,
//! and its slots. What is asked is told by these. What a call does to a head is a relation of the implementation's own, which
//! may say more; laws say what it means for these three, and a caller who knows no more than the trait knows that.

ghost use Rattle.std.specs.Prelude.{◌≡◌, ℕ, Bool, true, ℤ, Result};
ghost use Rattle.head.specs.declared.order.Order.{Order};
ghost use Rattle.head.specs.declared.outcome.Endings.{Endings};
ghost use Rattle.head.specs.declared.outcome.Refusal.{Refusal};
ghost use Rattle.head.specs.declared.setting.Setting.{Setting as S};
ghost use Rattle.head.specs.Settings.{in_range, looked};
ghost use Rattle.head.specs.Meaning.{Slots, at, Timed, left_of, StartMeans, TickMeans, DropMeans};

use crate::order::Order;
use crate::outcome::{Endings, Refusal};
use crate::setting::Setting;

/// What can be looked at: a value in range for each setting, and whether there is pan and tilt.
pub trait Look {
    ghost setting: { Self → S → ℤ };

    ghost pantilt: { Self → Bool };

    /// The value of the setting with this number; a number that no setting has, none.
    fn look(&self, number: u8) -> Option<i32>
        ensures { result ≡ looked (setting self.now) number };

    /// Whether there is pan and tilt.
    fn has_pan_tilt(&self) -> bool
        ensures { result ≡ pantilt self.now };

    ghost ranged: { (x : Self) (s : S) → in_range s (setting x s) ≡ true };
}

/// The value of the setting; every setting has one.
pub fn value<L: Look>(from: &L, setting: Setting) -> i32
    ensures { result ≡ L.Look.setting from.now setting }
{
    from.look(setting.number()).unwrap()
}

/// A camera head: what can be looked at, and has two slots, 1 and 2, for orders at work.
pub trait Head: Look {
    ghost slots: { Self → Slots };

    // What a call is between a head's own values: the head before it, what it was given, what it answered, and
    // the head then. Who makes a head may take the meaning itself for it, or say more; whoever uses heads knows
    // nothing of these, so that only the call itself can prove one.
    ghost started: { Self → ℕ → Order → Result (Unit {0}) Refusal → Self → Type 0 };

    ghost ticked: { Self → Endings → Self → Type 0 };

    ghost dropped: { Self → ℕ → Self → Type 0 };

    // A slot is a number here and no enum, so that one that is neither 1 nor 2 is answered, and callers have
    // nothing to show.

    /// The ticks left of the slot's order; 0 if the slot is idle or is neither 1 nor 2.
    fn ticks_left(&self, slot: u8) -> u16
        ensures { result ≡ left_of (at (slots self.now) slot) };

    /// Has the slot hold the order, for ticks that the head chooses from 1 to 1,000; or turns the
    /// order down, with the first reason that fits, and leaves the head as it was.
    fn start(&mut self, slot: u8, order: &Order) -> Result<(), Refusal>
        ensures { started self.old slot order.now result self.new };

    /// Goes on with both orders and tells which ended, and how.
    fn tick(&mut self) -> Endings
        ensures { ticked self.old result self.new };

    /// Makes the slot idle; a number that is neither 1 nor 2 changes nothing.
    fn drop_slot(&mut self, slot: u8)
        ensures { dropped self.old slot self.new };

    ghost timed: { (x : Self) (y : ℕ) → Timed (at (slots x) y) };

    // What the calls mean. Each law lends its word the members of `Look` and `slots`: a member for the view could be
    // given another meaning, and a definition over the record of `Look` would be an import cycle.
    ghost start_means: { StartMeans Self.Look.setting Self.Look.pantilt slots started };

    ghost tick_means: { TickMeans Self.Look.setting Self.Look.pantilt slots ticked };

    ghost drop_means: { DropMeans Self.Look.setting Self.Look.pantilt slots dropped };
}
