//! A reader, a writer and a clock as what is outside of a box.

ghost use Rattle.std.specs.Prelude.{◌≡◌, ◌^◌, ◌-◌, ◌≤◌, [], length, take, IfOk, OnOk, OnErr};
ghost use Rattle.std.specs.Io.KnownBytes.{Appends};
ghost use Rattle.serial.specs.Streams.{AppendsFront, OperatedOn, known_of, operated_means};

use crate::outside::Outside;
use std::io;
use std::io::{ErrorKind, Read, Write};
use std::time::{Clock, Instant};

/// A reader, a writer and a clock. It gives 2^64 - 1 reads, more than any machine makes, and then fails, so that a
/// loop over reads ends.
#[derive(Drop)]
pub struct Streams<R, W, C> {
    input: R,
    output: W,
    clock: C,
    reads: u64,
}

impl<R, W, C> Streams<R, W, C> {
    pub fn new(input: R, output: W, clock: C) -> Streams<R, W, C>
        ensures input { result.input ≡ input }
        ensures output { result.output ≡ output }
        ensures clock { result.clock ≡ clock }
        ensures reads { result.reads ≡ 2 ^ 64 - 1 }
    {
        Streams {
            input,
            output,
            clock,
            reads: u64::MAX,
        }
    }
}

// Writes some of the bytes, from the front, and tells how many; none, where a signal broke the write off.
fn write_some<W: Write>(output: &mut W, bytes: &[u8]) -> io::Result<usize>
    ensures within { IfOk result (λ n. n ≤ length bytes.now) }
    ensures some { IfOk result (λ n. Appends (W.contents output.old) (W.contents output.new) (take n bytes.now)) }
    ensures none { OnErr result (Appends (W.contents output.old) (W.contents output.new) []) }
{
    match output.write(bytes) {
        Ok(0) => Err(io::Error::new(ErrorKind::WriteZero, "nothing more can be written")),
        Err(error) if error.kind() == ErrorKind::Interrupted => Ok(0),
        written => written,
    }
}

// Writes all of the bytes; if that fails, some of them, from the front, are written.
fn write_all<W: Write>(output: &mut W, bytes: &[u8]) -> io::Result<()>
    ensures all { OnOk result (Appends (W.contents output.old) (W.contents output.new) bytes.now) }
    ensures some { OnErr result (AppendsFront (W.contents output.old) (W.contents output.new) bytes.now) }
{
    let mut count = 0;
    for _ in 0..u64::MAX {
        if count >= bytes.len() {
            return Ok(());
        }
        count += write_some(output, &bytes[count..])?;
    }
    Err(io::Error::other("writes are broken off for ever"))
}

impl<R: Read, W: Write, C: Clock> Outside for Streams<R, W, C> {
    ghost operated = { OperatedOn R.remaining W.contents };

    ghost known = { known_of R.remaining W.contents };

    ghost means = { operated_means R.remaining W.contents };

    fn read(&mut self, buffer: &mut [u8]) -> io::Result<usize> {
        if self.reads == 0 {
            return Err(io::Error::other("too many reads"));
        }
        self.reads -= 1;
        self.input.read(buffer)
    }

    fn write(&mut self, bytes: &[u8]) -> io::Result<()> {
        write_all(&mut self.output, bytes)?;
        self.output.flush()
    }

    fn now(&mut self) -> io::Result<Instant> {
        Instant::now(&self.clock)
    }
}
