//! Lines of a script played on an end, over any head, with the answers written.

ghost use Rattle.std.specs.Iterator.{IsFinite};

use crate::answer::Answer;
use crate::line::{Line, Room, USUAL};
use end::{End, Fault, OpenSockets};
use head::Head;
use std::io;

/// What is written for a line that makes no call.
pub fn not_understood(rt: &impl Print) -> io::Result<()> {
    println!(rt; "not understood")
}

// Writes one of several answers, unless it is quiet, and says whether it did.
fn tell(rt: &impl Print, answer: Answer) -> io::Result<bool> {
    if answer.is_quiet() {
        return Ok(false);
    }
    println!(rt; "{answer}")?;
    Ok(true)
}

// Makes a call for each item, with a buffer of this length, and writes the answers. Calls that all
// told nothing still write a line.
fn tell_each<T, I: Iterator<Item = T> + Drop, F: FnMut(T, &mut [u8]) -> Result<usize, Fault>>(
    rt: &impl Print,
    room: Room,
    items: I,
    mut call: F,
) -> io::Result<()>
    requires can { I.can_next items }
    requires ends { IsFinite (I.remaining items) }
    requires callable { F.IsAlwaysCallable call }
{
    let mut told = false;
    for item in items {
        let mut buffer = [0; 64];
        let out = &mut buffer[..room.len];
        let called = call(item, out);
        told |= tell(rt, Answer::new(called, out))?;
    }
    if told {
        return Ok(());
    }
    println!(rt; "sent nothing")
}

fn send<H: Head>(rt: &impl Print, end: &mut End<H>, bytes: &[u8], room: Room) -> io::Result<()> {
    tell_each(rt, room, bytes.iter(), |value, out| end.byte(*value, out))
}

fn ticks<H: Head>(rt: &impl Print, end: &mut End<H>, times: u32, room: Room) -> io::Result<()> {
    tell_each(rt, room, 0..times, |_, out| end.tick(out))
}

fn open(rt: &impl Print, sockets: OpenSockets) -> io::Result<()> {
    let text = match (sockets.one, sockets.two) {
        (true, true) => "1 2",
        (true, false) => "1",
        (false, true) => "2",
        (false, false) => "none",
    };
    println!(rt; "open {text}")
}

fn look<H: Head>(rt: &impl Print, head: &H, number: u8) -> io::Result<()> {
    match head.look(number) {
        Some(value) => println!(rt; "setting {number} is {value}"),
        None => println!(rt; "setting {number} has no value"),
    }
}

fn slots<H: Head>(rt: &impl Print, head: &H) -> io::Result<()> {
    let one = head.ticks_left(1);
    let two = head.ticks_left(2);
    println!(rt; "slots {one} {two}")
}

/// Makes the call of a line and writes what it answers. The end comes back; after a take-off it is
/// a new one, made from the head.
pub fn play<H: Head + Drop>(rt: &impl Print, end: End<H>, line: Line) -> io::Result<End<H>> {
    let mut end = end;
    match line {
        Line::Blank => {}
        Line::Head(_) => not_understood(rt)?,
        Line::Byte(value, room) => send(rt, &mut end, &[value], room)?,
        Line::Send(bytes) => send(rt, &mut end, bytes.as_slice(), USUAL)?,
        Line::Tick(times, room) => ticks(rt, &mut end, times, room)?,
        Line::Open => open(rt, end.open())?,
        Line::Look(number) => look(rt, end.head(), number)?,
        Line::Slots => slots(rt, end.head())?,
        Line::TakeOff => {
            end = End::make(end.take_off());
            println!(rt; "taken off")?;
        }
    }
    Ok(end)
}
