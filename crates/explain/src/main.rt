//! Explains packets to people who look at captures: one packet a line, as hexadecimal text, and
//! what each is in words.

#![tactic(auto)]

use captures::explain_capture;
use std::io;

fn main(rt: HostRuntime) -> io::Result<()> {
    explain_capture(&rt, rt.stdin())
}
