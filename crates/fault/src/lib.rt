//! How a fault is told, whichever layer finds it: its number, the layer, and its place in the packet.

#![tactic(auto)]

mod code;

pub use code::{FaultCode, Layer};
