//! A lecture over the line: what the joystick sends, what the box answers, and where the camera
//! looks. Next door, behind a second box, the dome is stalled.

#![tactic(auto)]

mod lecture;
mod tell;
mod words;

use end::End;
use heads::Dome;
use lecture::{LECTURE, NEXT_DOOR};
use std::io;
use tell::play;

fn main(rt: HostRuntime) -> io::Result<()> {
    let mut end = End::make(Dome::new(false));
    play(&rt, &mut end, LECTURE)?;
    let mut next_door = End::make(Dome::new(true));
    play(&rt, &mut next_door, NEXT_DOOR)
}
