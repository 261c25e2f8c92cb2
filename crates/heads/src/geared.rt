//! A rig with its gear, which is a head.

ghost use Rattle.std.specs.Prelude.{◌≡◌};
ghost use Rattle.heads.specs.declared.motion.Motion.TheVariants.{Stepwise};
ghost use Rattle.heads.specs.Punctual.{OnTime};
ghost use Rattle.heads.specs.Rigs.{rig_meaning};

use crate::gear::Gear;
use crate::rig::Rig;
use head::{Endings, Head, Look, Order, Refusal};

/// Settings, slots and the gear; and where that moves by steps, every order arrives within its
/// ticks.
#[derive(Drop)]
pub struct Geared<G: Gear> {
    pub(crate) gear: G,
    pub(crate) rig: Rig,
    ghost moves: { rig.motion ≡ G.motion gear },
    ghost on_time: { G.motion gear ≡ Stepwise → OnTime (rig_meaning G.PAN_TILT rig) },
}

// The rig does it all. It keeps the gear's motion and needs nothing more of it, so its code and proofs name no gear.
impl<G: Gear> Look for Geared<G> {
    ghost use Rattle.head.specs.Values.{value_of};
    ghost use Rattle.std.proofs.Common.{rules};

    ghost setting = { λ h. value_of h.rig.settings };

    ghost pantilt = { λ h. G.PAN_TILT };

    ghost ranged = { Prim.search rules };

    fn look(&self, number: u8) -> Option<i32> {
        self.rig.settings.look(number)
    }

    fn has_pan_tilt(&self) -> bool {
        G::PAN_TILT
    }
}

impl<G: Gear> Head for Geared<G> {
    ghost use Rattle.head.specs.Works.{slots_of};
    ghost use Rattle.heads.specs.Geared.{gear_of, geared_meaning, GearStarts, GearTicks, GearDrops};
    ghost use Rattle.std.proofs.Common.{rules};

    ghost slots = { λ h. slots_of h.rig.works };

    ghost started = { λ x y o r z. GearStarts (G.ticks (geared_meaning x).setting o) x y o r z };

    ghost ticked = { λ x e z. GearTicks (G.motion (gear_of x)) x e z };

    ghost dropped = { GearDrops };

    ghost start_means = { λ x y o r z h. h.started };

    ghost tick_means = { λ x e z h. h.ticked };

    ghost drop_means = { λ x y z h. h.dropped };

    ghost timed = { Prim.search rules };

    fn ticks_left(&self, slot: u8) -> u16 {
        self.rig.works.ticks_left(slot)
    }

    #[inline(always)]
    fn start(&mut self, slot: u8, order: &Order) -> Result<(), Refusal> {
        self.rig.start(G::PAN_TILT, slot, order)
    }

    #[inline(always)]
    fn tick(&mut self) -> Endings {
        self.rig.tick()
    }

    fn drop_slot(&mut self, slot: u8) {
        self.rig.works.drop_slot(slot)
    }
}
