//! Scripts of calls: each line is read, its call made on one end, and what the call answers written. The program
//! `bench` plays its standard input.

#![tactic(auto)]

mod answer;
mod line;
mod parse;
mod play;
mod stand;

use parse::parse;
use play::not_understood;
use stand::go_on;
use std::io;
use std::io::{BufRead, BufReader, Read};

/// Plays a script, whatever it says: an error is one of reading, of writing, or of memory.
pub fn play_script<R: Print + AllocGlobal, I: Read + Drop>(rt: &R, input: I) -> io::Result<()> {
    let heap = rt.alloc();
    let mut stand = None;
    for text in BufReader::new(heap, input)?.split(heap, b'\n') {
        match parse(heap, text?.as_slice())? {
            Some(line) => stand = go_on(stand, rt, line)?,
            None => not_understood(rt)?,
        }
    }
    Ok(())
}
