//! Decisions that need no state: which rule of the ring a whole packet meets, whether the modes
//! forbid a command, and what the replies are as bytes.

#![tactic(auto)]

mod modes;
mod reply;
mod ring;
pub mod theorems;

pub use modes::{forbidden, powers_on};
pub use reply::{Problem, Reply, UnknownCode, Unread};
pub use ring::Rule;
