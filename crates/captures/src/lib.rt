//! Captures of a line, explained to people who look at them: packets as hexadecimal text, one a line, and what each is in
//! words. The program `explain` explains its standard input.

#![tactic(auto)]

mod order;
mod packet;
mod words;

use hexadecimal::{Hex, byte};
use packet::explain_packet;
use std::alloc::{AllocError, Global};
use std::io;
use std::io::{BufRead, BufReader, Read};
use std::str::from_utf8;
use wire::{Framer, FramingFault, Packet};
use words::explain_fault;

// How many bytes a line has room for.
const ROOM: usize = 64;

// The bytes of a line, or none if it is no text, if a word is no byte, or if they are too many.
fn parse(heap: Global, line: &[u8]) -> Result<Option<Vec<u8>>, AllocError> {
    let Ok(line) = from_utf8(line) else {
        return Ok(None);
    };
    // One word more than there is room for says that there are too many.
    let words = line.split_whitespace().take(ROOM + 1);
    let bytes: Option<Vec<u8>> = words.map(byte).collect(heap)?;
    Ok(bytes.filter(|bytes| bytes.len() <= ROOM))
}

fn explain_event(rt: &impl Print, event: Result<Packet, FramingFault>) -> io::Result<()> {
    match event {
        Ok(packet) => explain_packet(rt, &packet),
        Err(fault) => explain_fault(rt, fault.into(), &fault),
    }
}

// Feeds the bytes to a framer, and explains what each of them tells.
fn explain(rt: &impl Print, bytes: &[u8]) -> io::Result<()> {
    let mut framer = Framer::new();
    let mut told = false;
    for event in bytes
        .iter()
        .filter_map(|byte| framer.feed(*byte).transpose())
    {
        explain_event(rt, event)?;
        told = true;
    }
    if told {
        return Ok(());
    }
    println!(rt; "no whole packet")
}

fn explain_line(rt: &impl Print, heap: Global, line: &[u8]) -> io::Result<()> {
    let Some(bytes) = parse(heap, line)? else {
        return println!(rt; "not understood");
    };
    if bytes.is_empty() {
        return Ok(());
    }
    print!(rt; "{}  ", Hex(bytes.as_slice()))?;
    explain(rt, bytes.as_slice())
}

/// Explains each line: an error is one of reading, of writing, or of memory.
pub fn explain_capture<R: Print + AllocGlobal, I: Read + Drop>(rt: &R, input: I) -> io::Result<()> {
    let heap = rt.alloc();
    for line in BufReader::new(heap, input)?.split(heap, b'\n') {
        explain_line(rt, heap, line?.as_slice())?;
    }
    Ok(())
}
