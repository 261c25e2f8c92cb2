//! A box on a serial line: what it does after each read of the line, how many ticks the clock owes it, and when
//! the line has fallen silent for good. The program `r3` is its standard streams and a call of this.

#![tactic(auto)]

mod arguments;
mod outside;
mod port;
mod program;
mod silence;
mod streams;
mod theorems;
mod ticks;

pub use arguments::{Arguments, ArgumentsError};
pub use outside::Outside;
pub use port::Port;
pub use program::{Failure, run, run_and_tell};
pub use silence::{Finish, Silence};
pub use streams::Streams;
pub use theorems::reads_owe_together;
pub use ticks::{MOST_AT_ONCE, TickLength, Ticks};
