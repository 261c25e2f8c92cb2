//! The end of the line at a camera head: bytes come in, packets go out, and the head does what the
//! packets say.

#![tactic(auto)]

mod call;
mod calls;
mod deeds;
mod end;
mod faults;
mod packets;
pub mod promises;
mod script;
mod sending;
mod socket;
pub mod tried;

pub use call::Call;
pub use end::End;
pub use faults::{Cause, Fault, bytes_sent};
pub use script::play;
pub use sending::ROOM;
pub use socket::{OpenSockets, Sockets};
