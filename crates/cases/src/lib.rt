//! Tests over tables, in a crate of their own so that no library is proved twice.

#![tactic(auto)]

#[cfg(test)]
mod answers;
#[cfg(test)]
mod counted;
#[cfg(test)]
mod counting;
#[cfg(test)]
mod dealer;
#[cfg(test)]
mod dome;
#[cfg(test)]
mod orders;
#[cfg(test)]
mod played;
#[cfg(test)]
mod ranges;
#[cfg(test)]
mod runs;
#[cfg(test)]
mod starts;
#[cfg(test)]
mod strangers;
