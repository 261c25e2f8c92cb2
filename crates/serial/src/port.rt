//! A box at its line: what it does after each read, whatever the line brings and whenever it is read.

ghost use Rattle.std.specs.Prelude.{◌≡◌, ◌<◌, ◌≤◌, false, length, take, map, replicate, OnOk, IfOk, IfErr, IsTrue, ◌↔◌};
ghost use Rattle.std.specs.Io.{ReadsAtMost};
ghost use Rattle.std.specs.IoError.{error_kind};
ghost use Rattle.end.specs.Faults.{count_told};
ghost use Rattle.end.specs.declared.call.Call.TheVariants.{Byte, Tick};
ghost use Rattle.serial.specs.Outside.{bytes_read};
ghost use Rattle.serial.specs.Sums.{Sums};
ghost use Rattle.serial.specs.Turns.{Answered, CallReplied, Counted, Failed, Fresh, Served, Unbroken, Wrote, calls_due, end_of, finish_of, time_then};

use crate::outside::Outside;
use crate::silence::{Finish, Silence};
use crate::ticks::{TickLength, Ticks};
use end::{End, Fault, ROOM, bytes_sent};
use head::{Head, Look};
use std::io;
use std::io::ErrorKind;
use std::time::Instant;

/// The most bytes that a read asks for.
pub const READ: usize = 256;

// Writes what a call sent, if it sent anything.
#[tactic(auto, using(crate::proofs::Turned::wrote, crate::proofs::Turned::unwritten))]
fn reply<O: Outside>(
    told: Result<usize, Fault>,
    buffer: &[u8; ROOM],
    outside: &mut O,
) -> io::Result<()>
    requires { count_told told ≤ length buffer.now }
    ensures { Wrote O.operated (take (count_told told) buffer.now) outside.old result outside.new }
{
    let sent = &buffer[..bytes_sent(told)];
    if sent.is_empty() {
        return Ok(());
    }
    outside.write(sent)
}

fn answer_byte<H: Head, O: Outside>(end: &mut End<H>, byte: u8, outside: &mut O) -> io::Result<()>
    ensures { CallReplied O.operated (Byte byte) end.old outside.old result end.new outside.new }
{
    let mut buffer = [0; ROOM];
    let told = end.byte(byte, &mut buffer);
    reply(told, &buffer, outside)
}

fn answer_tick<H: Head, O: Outside>(end: &mut End<H>, outside: &mut O) -> io::Result<()>
    ensures { CallReplied O.operated Tick end.old outside.old result end.new outside.new }
{
    let mut buffer = [0; ROOM];
    let told = end.tick(&mut buffer);
    reply(told, &buffer, outside)
}

fn answer_bytes<H: Head, O: Outside>(
    end: &mut End<H>,
    bytes: &[u8],
    outside: &mut O,
) -> io::Result<()>
    ensures answered { OnOk result (Answered O.operated (map Byte bytes.now)
        end.old outside.old end.new outside.new) }
    ensures failed { IfErr result (λ e. Failed O.operated (map Byte bytes.now) e
        end.old outside.old end.new outside.new) }
{
    for byte in bytes {
        answer_byte(end, *byte, outside)?;
    }
    Ok(())
}

fn answer_ticks<H: Head, O: Outside>(
    end: &mut End<H>,
    ticks: u32,
    outside: &mut O,
) -> io::Result<()>
    ensures answered { OnOk result (Answered O.operated (replicate ticks Tick)
        end.old outside.old end.new outside.new) }
    ensures failed { IfErr result (λ e. Failed O.operated (replicate ticks Tick) e
        end.old outside.old end.new outside.new) }
{
    for _ in 0..ticks {
        answer_tick(end, outside)?;
    }
    Ok(())
}

// Whether a signal broke the read off, before a byte came.
fn is_interrupted(read: &io::Result<usize>) -> bool
    ensures none { OnOk read.now (result ≡ false) }
    ensures signal { IfErr read.now (λ e. IsTrue result ↔ (error_kind e ≡ ErrorKind.Interrupted)) }
{
    matches!(read, Err(error) if error.kind() == ErrorKind::Interrupted)
}

// Reads, and again where a signal broke the read off.
fn read<O: Outside>(outside: &mut O, buffer: &mut [u8; READ]) -> io::Result<usize>
    ensures within { ReadsAtMost result buffer.new }
    ensures unbroken { Unbroken O.operated outside.old (bytes_read result buffer.new) outside.new }
    ensures fewer { OnOk result ((O.known outside.new).left < (O.known outside.old).left) }
{
    loop {
        let read = outside.read(buffer);
        if !is_interrupted(&read) {
            return read;
        }
    }
}

// The time then, in whole milliseconds from the start; where the clock went back, it stands.
fn time_at(start: Instant, before: u64, now: Instant) -> u64
    ensures { result ≡ time_then start before now }
{
    let millis = u64::try_from(now.duration_since(start).as_millis()).unwrap_or(u64::MAX);
    millis.max(before)
}

/// An end at a line, with the ticks that the clock owes it and the silence of the line.
#[derive(Drop)]
pub struct Port<H: Head> {
    end: End<H>,
    ticks: Ticks,
    silence: Silence,
    // After how many quiet reads the line counts as quiet.
    quiet: Option<u32>,
}

impl<H: Head> Port<H> {
    /// An end made of the head at time 0, with no tick owed and nothing quiet yet.
    pub fn new(head: H, tick: TickLength, quiet: Option<u32>) -> Port<H>
        ensures { Fresh head tick quiet result }
    {
        Port {
            end: End::make(head),
            ticks: Ticks {
                length: tick,
                paid: 0,
            },
            silence: Silence { reads: 0, since: 0 },
            quiet,
        }
    }

    /// A turn, after a read of some bytes or of none: each byte in order, then the ticks owed, so that a busy line
    /// does not starve the head and a quiet one gets its completions. What a call sends is written before the next
    /// is made. It tells what ends serving, if anything does.
    pub fn turn<O: Outside>(
        &mut self,
        bytes: &[u8],
        now: u64,
        outside: &mut O,
    ) -> io::Result<Option<Finish>>
        ensures answered { OnOk result (Answered O.operated (calls_due self.old bytes.now now)
            (end_of self.old) outside.old (end_of self.new) outside.new) }
        ensures failed { IfErr result (λ e. Failed O.operated (calls_due self.old bytes.now now) e
            (end_of self.old) outside.old (end_of self.new) outside.new) }
        ensures counted { Counted bytes.now now self.old self.new }
        ensures told { IfOk result (λ f. f ≡ finish_of self.old bytes.now now) }
    {
        let finish = self.silence.heard(bytes.len(), now, self.quiet);
        let ticks = self.ticks.owed(now);
        answer_bytes(&mut self.end, bytes, outside)?;
        answer_ticks(&mut self.end, ticks, outside)?;
        Ok(finish)
    }

    /// Turn after turn, each after a read and at the time that the clock then tells, until the line is quiet or has
    /// gone: what ended it, or the error of the read, the write or the clock that failed. Time counts from the call. A
    /// read asks for a byte at least, so that one of no bytes is a quiet one.
    pub fn serve<O: Outside>(&mut self, outside: &mut O) -> io::Result<Finish>
        ensures served { Served O.operated self.old outside.old result self.new outside.new }
        ensures sums { Sums self.old (O.known outside.old) result self.new (O.known outside.new) }
    {
        let start = outside.now()?;
        let mut time = 0;
        let mut buffer = [0; READ];
        loop {
            let count = read(outside, &mut buffer)?;
            time = time_at(start, time, outside.now()?);
            if let Some(finish) = self.turn(&buffer[..count], time, outside)? {
                return Ok(finish);
            }
        }
    }
}
