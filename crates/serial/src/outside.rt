//! What is outside of a box: a line, which is read and written, and a clock.
//!
//! A box is proved over any outside. What a call on it does is a relation between the outside's own values, which
//! only that call shows: so a box makes just the operations that its contract tells, in that order.

ghost use Rattle.std.specs.Prelude.{length};
ghost use Rattle.std.specs.Io.{ReadsAtMost};
ghost use Rattle.serial.specs.Outside.{Known, Means, Operation, bytes_read, reads, tells, writes};

use std::io;
use std::time::Instant;

/// A line and a clock.
pub trait Outside {
    // The outside before an operation, the operation with what came of it, and the outside then. Who makes an outside
    // may take for it what can be said of the operation.
    ghost operated: { Self → Operation → Self → Type 0 };

    ghost known: { Self → Known };

    /// Reads some bytes; none, if none came in time.
    fn read(&mut self, buffer: &mut [u8]) -> io::Result<usize>
        ensures within { ReadsAtMost result buffer.new }
        ensures operated { operated self.old (reads (length buffer.old) (bytes_read result buffer.new)) self.new };

    /// Writes all of the bytes, and waits until they are on their way.
    fn write(&mut self, bytes: &[u8]) -> io::Result<()>
        ensures { operated self.old (writes bytes.now result) self.new };

    /// What the clock tells.
    fn now(&mut self) -> io::Result<Instant>
        ensures { operated self.old (tells result) self.new };

    ghost means: { (x : Self) (o : Operation) (y : Self) → operated x o y → Means o (known x) (known y) };
}
