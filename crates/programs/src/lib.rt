//! What the programs `r3`, `bench` and `explain` do for words, bytes and scripts, tried with a runtime of our own. In a
//! crate of its own, so that no library is proved twice.

#![tactic(auto)]

#[cfg(test)]
mod bench;
#[cfg(test)]
mod called;
#[cfg(test)]
mod explain;
#[cfg(test)]
mod r3;
