//! Bytes to packets, and packets onto the line.
//!
//! Bytes come in one at a time and go through a `Framer`, which tells whole packets and faults.
//! What is sent goes to the front of a buffer that the caller lends.

#![tactic(auto)]

mod bytes;
mod faults;
mod framer;
mod packet;
pub mod theorems;
mod writer;

pub use bytes::{Bytes, Full};
pub use faults::FramingFault;
pub use framer::Framer;
pub use packet::Packet;
pub use writer::send_at;
