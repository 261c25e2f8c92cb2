//! A bench for the camera end: plays the script on its standard input.

#![tactic(auto)]

use scripts::play_script;
use std::io;

fn main(rt: HostRuntime) -> io::Result<()> {
    play_script(&rt, rt.stdin())
}
