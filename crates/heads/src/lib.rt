//! Our heads: the block, which has no pan and tilt and does every order in one tick, and the
//! dome, which has both and moves by steps.

#![tactic(auto)]

mod any;
mod block;
mod dome;
mod gear;
mod geared;
mod motion;
mod rig;

pub use any::{AnyHead, HeadKind, NoSuchHead, OneOf};
pub use block::Block;
pub use dome::Dome;
