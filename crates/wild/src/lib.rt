//! A camera head of another make: its dice, its endings and its moves are its own, and it takes from `head` what
//! every maker of a head has. It is as wild as the promises of `Look` and `Head` let a head be. Whoever builds on
//! heads has to live with this one.

#![tactic(auto)]

mod dice;
mod wild;

pub use dice::Dice;
pub use wild::Wild;
