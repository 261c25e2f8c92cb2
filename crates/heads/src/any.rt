//! Heads of one make or another, for programs that learn only as they run which head to make.

ghost use Rattle.std.specs.Prelude.{◌≡◌};

use crate::block::Block;
use crate::dome::Dome;
use head::{Endings, Head, Look, Order, Refusal};
use std::str::FromStr;

/// Which of our heads.
#[derive(Clone, Copy, Debug, PartialEq, Eq)]
pub enum HeadKind {
    Block,
    Dome,
    /// A dome that never moves a position.
    StalledDome,
}

/// A word that names none of our heads.
#[derive(Clone, Copy, Debug, PartialEq, Eq)]
pub struct NoSuchHead;

impl FromStr for HeadKind {
    ghost use Rattle.heads.specs.Any.{head_named};

    type Err = NoSuchHead;

    ghost from_str_gives = { λ word kind. kind ≡ head_named word };

    fn from_str(word: &str) -> Result<HeadKind, NoSuchHead> {
        match word {
            "block" => Ok(HeadKind::Block),
            "dome" => Ok(HeadKind::Dome),
            "stalled" => Ok(HeadKind::StalledDome),
            _ => Err(NoSuchHead),
        }
    }
}

/// A head of one make or of another: every call goes to the head that it is.
#[derive(Drop)]
pub enum OneOf<A, B> {
    First(A),
    Second(B),
}

/// A block or a dome.
pub type AnyHead = OneOf<Block, Dome>;

impl OneOf<Block, Dome> {
    ghost use Rattle.head.specs.declared.setting.Setting.{Setting};
    ghost use Rattle.head.specs.Meaning.{idle};
    ghost use Rattle.head.specs.Settings.{about};
    ghost use Rattle.heads.specs.Any.{kind_of};

    /// A head of that kind with its first settings, both slots idle.
    pub fn new(kind: HeadKind) -> AnyHead
        ensures kind { kind_of result ≡ kind }
        ensures settings { (s : Setting) → ⟦<AnyHead as Look>⟧.setting result s ≡ (about s).first }
        ensures slots { ⟦<AnyHead as Head>⟧.slots result ≡ record { one = idle; two = idle } }
    {
        match kind {
            HeadKind::Block => OneOf::First(Block::new()),
            HeadKind::Dome => OneOf::Second(Dome::new(false)),
            HeadKind::StalledDome => OneOf::Second(Dome::new(true)),
        }
    }
}

impl<A: Look, B: Look> Look for OneOf<A, B> {
    ghost use Rattle.heads.specs.Any.{of_either};
    ghost use Rattle.heads.specs.declared.any.OneOf.TheVariants.{First, Second};

    ghost setting = { of_either A.setting B.setting };

    ghost pantilt = { of_either A.pantilt B.pantilt };

    ghost ranged = { elim [ First a ↦ A.ranged a | Second b ↦ B.ranged b ] };

    fn look(&self, number: u8) -> Option<i32> {
        match self {
            OneOf::First(head) => head.look(number),
            OneOf::Second(head) => head.look(number),
        }
    }

    fn has_pan_tilt(&self) -> bool {
        match self {
            OneOf::First(head) => head.has_pan_tilt(),
            OneOf::Second(head) => head.has_pan_tilt(),
        }
    }
}

impl<A: Head, B: Head> Head for OneOf<A, B> {
    ghost use Rattle.heads.specs.Any.{of_either, Alike};
    ghost use Rattle.std.proofs.Common.{rules};

    ghost slots = { of_either A.slots B.slots };

    ghost started = { λ x y o r x'. Alike
        (λ a a'. A.started a y o r a') (λ b b'. B.started b y o r b') x x' };

    ghost ticked = { λ x e x'. Alike (λ a a'. A.ticked a e a') (λ b b'. B.ticked b e b') x x' };

    ghost dropped = { λ x y x'. Alike (λ a a'. A.dropped a y a') (λ b b'. B.dropped b y b') x x' };

    ghost timed = { Prim.search rules };

    ghost start_means = { Prim.search rules };

    ghost tick_means = { Prim.search rules };

    ghost drop_means = { Prim.search rules };

    fn ticks_left(&self, slot: u8) -> u16 {
        match self {
            OneOf::First(head) => head.ticks_left(slot),
            OneOf::Second(head) => head.ticks_left(slot),
        }
    }

    fn start(&mut self, slot: u8, order: &Order) -> Result<(), Refusal> {
        match self {
            OneOf::First(head) => head.start(slot, order),
            OneOf::Second(head) => head.start(slot, order),
        }
    }

    fn tick(&mut self) -> Endings {
        match self {
            OneOf::First(head) => head.tick(),
            OneOf::Second(head) => head.tick(),
        }
    }

    fn drop_slot(&mut self, slot: u8) {
        match self {
            OneOf::First(head) => head.drop_slot(slot),
            OneOf::Second(head) => head.drop_slot(slot),
        }
    }
}
