//! How values of other crates are said in words.

use fault::FaultCode;
use std::{fmt, io};

/// A value, to be said in words.
#[derive(Clone, Copy, Debug, PartialEq, Eq)]
pub struct InWords<T>(pub T);

/// Writes a fault, by its code and its own words.
pub fn explain_fault(
    rt: &impl Print,
    code: FaultCode,
    fault: &impl fmt::Display,
) -> io::Result<()> {
    println!(rt; "fault {} at place {}: {fault}", code.number, code.place)
}
