//! Plays the steps of the lecture on an end, over any head, and tells what the box sends and where
//! the camera looks.

use crate::lecture::Step;
use crate::words::InWords;
use end::{End, Fault, ROOM, bytes_sent};
use head::{Head, Look, Setting, value};
use hexadecimal::Hex;
use std::io;
use wire::Framer;

// Tells the packets that the box sent.
fn tell_packets(rt: &impl Print, bytes: &[u8]) -> io::Result<()> {
    let mut framer = Framer::new();
    for packet in bytes
        .iter()
        .filter_map(|byte| framer.feed(*byte).ok().flatten())
    {
        let body = InWords(packet.body());
        println!(rt; "  box       {}  {body}", Hex(packet.bytes()))?;
    }
    Ok(())
}

// Makes a call and tells what it sent, with a fault or without: so many bytes at the front of its
// buffer.
fn tell_call<F: FnOnce(&mut [u8]) -> Result<usize, Fault>>(
    rt: &impl Print,
    call: F,
) -> io::Result<()>
    requires { F.IsAlwaysCallable call }
{
    let mut out = [0; ROOM];
    let count = bytes_sent(call(&mut out));
    tell_packets(rt, &out[..count.min(ROOM)])
}

fn send<H: Head>(rt: &impl Print, end: &mut End<H>, packet: &[u8], text: &str) -> io::Result<()> {
    println!(rt; "  joystick  {}  {text}", Hex(packet))?;
    for byte in packet {
        tell_call(rt, |out| end.byte(*byte, out))?;
    }
    Ok(())
}

fn wait<H: Head>(rt: &impl Print, end: &mut End<H>, ticks: u32) -> io::Result<()> {
    for _ in 0..ticks {
        tell_call(rt, |out| end.tick(out))?;
    }
    Ok(())
}

fn tell_view(rt: &impl Print, head: &impl Look, ticks: u32) -> io::Result<()> {
    let plural = if ticks == 1 { "" } else { "s" };
    let pan = value(head, Setting::Pan);
    let tilt = value(head, Setting::Tilt);
    let zoom = value(head, Setting::Zoom);
    println!(rt; "  camera    after {ticks} tick{plural}: pan {pan}, tilt {tilt}, zoom {zoom}")
}

/// Plays the steps in turn.
pub fn play<H: Head>(rt: &impl Print, end: &mut End<H>, steps: &[Step]) -> io::Result<()> {
    for step in steps {
        match *step {
            Step::Say(text) => println!(rt; "{text}")?,
            Step::Send(packet, text) => send(rt, end, packet, text)?,
            Step::Wait(ticks) => wait(rt, end, ticks)?,
            Step::Watch(ticks) => {
                wait(rt, end, ticks)?;
                tell_view(rt, end.head(), ticks)?;
            }
        }
    }
    Ok(())
}
