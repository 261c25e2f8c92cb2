//! A box on a serial line. Standard input and output are the line, which the script `serve` has set: a read gives
//! what bytes have come, or none after a tenth of a second.

#![tactic(auto)]

use serial::{Streams, run_and_tell};
use std::process::ExitCode;

fn main(rt: HostRuntime) -> ExitCode {
    run_and_tell(&rt, &mut Streams::new(rt.stdin(), rt.stdout(), &rt))
}
