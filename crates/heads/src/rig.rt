//! What our heads are made of, and what starts and ticks do to it.

ghost use Rattle.std.specs.Prelude.{◌≡◌, ◌≤◌, Bool, true, false, is_some, OnOk, OnErr};
ghost use Rattle.std.specs.List.{list_any};
ghost use Rattle.std.specs.Option.{option_map_or};
ghost use Rattle.head.specs.declared.setting.Setting.{Setting as S};
ghost use Rattle.head.specs.Meaning.{idle, busy, put, reason_given, Started};
ghost use Rattle.head.specs.Orders.{parts, wants, all_in_range};
ghost use Rattle.head.specs.Settings.{about};
ghost use Rattle.head.specs.Values.{value_of};
ghost use Rattle.head.specs.Work.{slot_of};
ghost use Rattle.head.specs.Works.{slots_of};
ghost use Rattle.heads.specs.Exact.{pulled as pulled_by, value_after, unnamed, ticks_of, TickedExactly};
ghost use Rattle.heads.specs.Rigs.{rig_meaning, foretold, target_given, set_when_done, drifted, taken_by_orders};
ghost use Rattle.heads.specs.Rigs.{followed, positions_moved, MovesOnly};

use crate::motion::{Motion, names_position};
use head::{
    Admitted, Axis, Ending, Endings, Order, Refusal, Setting, Settings, Target, Work, Works,
};

/// How a head moves, its settings, and what its slots hold.
#[derive(Drop)]
pub struct Rig {
    pub(crate) motion: Motion,
    pub(crate) settings: Settings,
    pub(crate) works: Works,
}

// Gives settings their targets, but for positions, which move. From the last target to the first, so
// that of two for a setting the first stays.
fn give(settings: &mut Settings, targets: &[Target])
    requires { all_in_range targets.now ≡ true }
    ensures { (s : S) → value_of settings.new s
        ≡ target_given (about s).axis (wants targets.now s) (value_of settings.old s) }
{
    let mut left = targets;
    while let [rest @ .., last] = left {
        if last.setting.axis().is_none() {
            settings.put(Admitted {
                setting: last.setting,
                value: last.value,
            });
        }
        left = rest;
    }
}

// Gives settings the targets of an order that is done.
fn close(settings: &mut Settings, work: &Option<Work>, ending: Option<Ending>)
    ensures { (s : S) → value_of settings.new s ≡ set_when_done (slot_of work.now) ending s (value_of settings.old s) }
{
    if let (Some(Ending::Done), Some(work)) = (ending, work) {
        give(settings, work.order.targets.as_slice());
    }
}

// Whether a slot's order names a position.
fn moves(work: &Option<Work>) -> bool
    ensures { result ≡ option_map_or (λ w. list_any (λ t. is_some (about t.setting).axis) (parts w.order.targets))
        work.now false }
{
    match work {
        None => false,
        Some(work) => names_position(work.order.targets.as_slice()),
    }
}

impl Rig {
    /// Settings at their first values and both slots idle.
    pub(crate) fn new(motion: Motion) -> Rig
        ensures motion { result.motion ≡ motion }
        ensures settings { (s : S) → value_of result.settings s ≡ (about s).first }
        ensures slots { slots_of result.works ≡ record { one = idle; two = idle } }
    {
        Rig {
            motion,
            settings: Settings::new(),
            works: Works::new(),
        }
    }

    /// Starts an order in a slot, or turns it down.
    #[inline(always)]
    pub(crate) fn start(&mut self, pan_tilt: bool, slot: u8, order: &Order) -> Result<(), Refusal>
        ensures started { Started (rig_meaning pan_tilt self.old) slot order.now
            (reason_given result) (rig_meaning pan_tilt self.new) }
        ensures ticks { let n = ticks_of self.old.motion (value_of self.old.settings) order.now in
            OnOk result (slots_of self.new.works ≡ put (slots_of self.old.works) slot (busy order.now n)) }
        ensures few { OnOk result (ticks_of self.old.motion (value_of self.old.settings) order.now ≤ 640) }
        ensures motion { self.new.motion ≡ self.old.motion }
        ensures refused { OnErr result (self.new ≡ self.old) }
    {
        let ticks = self.motion.ticks(&self.settings, order);
        self.works.start(pan_tilt, slot, order, ticks)
    }

    // How a slot's order ends at this tick, if it does.
    #[inline(always)]
    fn ending(&self, work: &Option<Work>) -> Option<Ending>
        ensures { result ≡ foretold self.now.motion (slot_of work.now) (value_of self.now.settings) }
    {
        let work = work.as_ref()?;
        if work.left.count > 1 {
            None
        } else if self.motion.all_arrive(&self.settings, &work.order) {
            Some(Ending::Done)
        } else {
            Some(Ending::Jammed)
        }
    }

    // Where a slot's order takes a setting, if it names it: a position moves, another gets its
    // target once the order is done.
    fn pulled(&self, work: &Option<Work>, ending: Option<Ending>, setting: Setting) -> Option<i32>
        ensures { result ≡
            pulled_by self.now.motion (slot_of work.now) ending setting (value_of self.now.settings setting) }
    {
        let order = &work.as_ref()?.order;
        let target = order.target(setting)?;
        Some(match setting.axis() {
            Some(axis) => self.motion.moved(&self.settings, order.paces, axis, target),
            None if ending == Some(Ending::Done) => target,
            None => self.settings.get(setting),
        })
    }

    // Moves the position of an axis by its drive, which most often is 0.
    fn drift(&mut self, axis: Axis)
        ensures { MovesOnly self.old (drifted self.old.motion axis (value_of self.old.settings)) self.new }
    {
        if self.settings.get(axis.drive()) != 0 {
            let setting = axis.position();
            let value = self.motion.driven(&self.settings, axis);
            self.settings.put(Admitted { setting, value });
        }
    }

    // Where an order takes a setting, if one names it.
    fn ordered(&self, endings: Endings, setting: Setting) -> Option<i32>
        ensures { result ≡ taken_by_orders self.now.motion (slots_of self.now.works) endings
            (value_of self.now.settings setting) setting }
    {
        self.pulled(&self.works.one, endings.one, setting)
            .or_else(|| self.pulled(&self.works.two, endings.two, setting))
    }

    // Moves the position of an axis, as an order has it that names it, or by its drive.
    fn follow(&mut self, endings: Endings, axis: Axis)
        ensures { MovesOnly self.old
            (followed self.old.motion (slots_of self.old.works) endings axis (value_of self.old.settings))
            self.new }
    {
        let setting = axis.position();
        match self.ordered(endings, setting) {
            Some(value) => self.settings.put(Admitted { setting, value }),
            None => self.drift(axis),
        }
    }

    // Moves each position as an order has it that names it, or by its drive.
    fn follow_all(&mut self, endings: Endings)
        ensures { MovesOnly self.old
            (positions_moved self.old.motion (slots_of self.old.works) endings (value_of self.old.settings))
            self.new }
    {
        self.follow(endings, Axis::Zoom);
        self.follow(endings, Axis::Focus);
        self.follow(endings, Axis::Pan);
        self.follow(endings, Axis::Tilt);
    }

    // Moves each position by its drive, where no order names one.
    #[inline(always)]
    fn drift_all(&mut self)
        ensures { MovesOnly self.old
            (λ s. unnamed self.old.motion (about s).axis (value_of self.old.settings) s)
            self.new }
    {
        self.drift(Axis::Zoom);
        self.drift(Axis::Focus);
        self.drift(Axis::Pan);
        self.drift(Axis::Tilt);
    }

    // Takes the positions to where they are after this tick.
    fn move_positions(&mut self, endings: Endings)
        ensures { MovesOnly self.old
            (positions_moved self.old.motion (slots_of self.old.works) endings (value_of self.old.settings))
            self.new }
    {
        // A stalled head moves nothing, whatever its orders name and its drives say.
        if self.motion == Motion::Stalled {
            return;
        }
        // Where no order names a position, none is looked for at each axis.
        if moves(&self.works.one) || moves(&self.works.two) {
            self.follow_all(endings);
        } else {
            self.drift_all();
        }
    }

    // Takes all settings to their values after this tick.
    fn advance(&mut self, endings: Endings)
        ensures { MovesOnly self.old
            (value_after self.old.motion (slots_of self.old.works) endings (value_of self.old.settings))
            self.new }
    {
        self.move_positions(endings);
        close(&mut self.settings, &self.works.one, endings.one);
        close(&mut self.settings, &self.works.two, endings.two);
    }

    // A tick with an order at work in a slot, or in both.
    #[inline(never)]
    fn work(&mut self) -> Endings
        ensures ran { (p : Bool) → TickedExactly self.old.motion (rig_meaning p self.old) result (rig_meaning p self.new) }
        ensures motion { self.new.motion ≡ self.old.motion }
    {
        let one = self.ending(&self.works.one);
        let two = self.ending(&self.works.two);
        let endings = Endings { one, two };
        self.advance(endings);
        self.works.count_down();
        endings
    }

    /// One tick: both orders go on, those with their last tick end, and settings follow.
    #[inline(always)]
    pub(crate) fn tick(&mut self) -> Endings
        ensures ran { (p : Bool) → TickedExactly self.old.motion (rig_meaning p self.old) result (rig_meaning p self.new) }
        ensures motion { self.new.motion ≡ self.old.motion }
    {
        if self.works.one.is_some() || self.works.two.is_some() {
            return self.work();
        }
        self.drift_all();
        Endings {
            one: None,
            two: None,
        }
    }
}
