//! The end for callers that are not Rattle: a list of calls, as numbers, played on a fresh end.

#![tactic(auto)]

mod asked;
mod kinds;
mod log;
mod time;

pub use log::r3_log;
pub use time::r3_time;
