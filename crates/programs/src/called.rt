//! A program's surroundings, held by a test: the words that it is called with, a line, a clock, and what it tells.

ghost use Rattle.std.specs.Io.{WritesAtMost};

use std::alloc::Global;
use std::cell::Cell;
use std::env::{Env, FillError};
use std::fmt::{Display, InlineText};
use std::io;
use std::io::Read;
use std::time::{Clock, Duration};

/// So much of what is printed is kept, and of what is told.
pub const KEPT: usize = 1024;

/// A text, of which the first bytes are kept.
#[derive(Drop)]
struct Kept(Cell<InlineText<KEPT>>);

impl Kept {
    fn new() -> Kept {
        Kept(Cell::new(InlineText::new()))
    }

    fn add<D: Display + Drop>(&self, value: D, end: &str) {
        let text = self.0.get().and(value, KEPT).and_str(end, KEPT);
        self.0.set(text);
    }
}

/// A program that was called with words, what it printed, and what it told on the standard error.
#[derive(Drop)]
pub struct Called<'a> {
    heap: Global,
    words: &'a [&'a str],
    // How often it prints before one print fails.
    prints: Cell<u32>,
    printed: Kept,
    told: Kept,
}

impl<'a> Called<'a> {
    pub fn new(heap: Global, words: &'a [&'a str]) -> Called<'a> {
        Called::failing(heap, words, u32::MAX)
    }

    /// One of which the print behind so many fails, and no other.
    pub fn failing(heap: Global, words: &'a [&'a str], prints: u32) -> Called<'a> {
        Called {
            heap,
            words,
            prints: Cell::new(prints),
            printed: Kept::new(),
            told: Kept::new(),
        }
    }

    pub fn printed(&self) -> InlineText<KEPT> {
        self.printed.0.get()
    }

    pub fn told(&self) -> InlineText<KEPT> {
        self.told.0.get()
    }

    fn add_printed<D: Display + Drop>(&self, value: D, end: &str) -> io::Result<()> {
        let prints = self.prints.get();
        self.prints.set(prints.wrapping_sub(1));
        if prints == 0 {
            return Err(io::Error::other("this print fails"));
        }
        self.printed.add(value, end);
        Ok(())
    }
}

impl Alloc for Called<'_> {
    type A = Global;

    fn alloc(&self) -> Global {
        self.heap
    }
}

fn fill(buffer: &mut [u8], text: &str) -> Result<usize, FillError>
    ensures { WritesAtMost result buffer.new }
{
    let bytes = text.as_bytes();
    if bytes.len() > buffer.len() {
        return Err(FillError::TooLong);
    }
    buffer[..bytes.len()].copy_from_slice(bytes);
    Ok(bytes.len())
}

impl Env for Called<'_> {
    fn arg(&self, place: usize, buffer: &mut [u8]) -> Result<usize, FillError> {
        if place == 0 {
            return fill(buffer, "program");
        }
        match self.words.get(place - 1) {
            Some(word) => fill(buffer, word),
            None => Err(FillError::NotPresent),
        }
    }

    fn var(&self, _name: &str, _buffer: &mut [u8]) -> Result<usize, FillError> {
        Err(FillError::NotPresent)
    }

    fn var_at(&self, _place: usize, _buffer: &mut [u8]) -> Result<usize, FillError> {
        Err(FillError::NotPresent)
    }
}

impl Eprint for Called<'_> {
    fn eprint<D: Display + Drop>(&self, value: D) -> io::Result<()> {
        self.told.add(value, "");
        Ok(())
    }

    fn eprintln<D: Display + Drop>(&self, value: D) -> io::Result<()> {
        self.told.add(value, "\n");
        Ok(())
    }
}

impl Print for Called<'_> {
    fn print<D: Display + Drop>(&self, value: D) -> io::Result<()> {
        self.add_printed(value, "")
    }

    fn println<D: Display + Drop>(&self, value: D) -> io::Result<()> {
        self.add_printed(value, "\n")
    }

    fn write_all(&self, _bytes: &[u8]) -> io::Result<()> {
        Err(io::Error::other("only text is told"))
    }
}

/// A clock that each reading moves on by so many milliseconds.
#[derive(Drop)]
pub struct Stepping {
    millis: Cell<u64>,
    step: u64,
}

impl Stepping {
    pub fn new(step: u64) -> Stepping {
        Stepping {
            millis: Cell::new(0),
            step,
        }
    }
}

impl Clock for Stepping {
    fn monotonic(&self) -> io::Result<Duration> {
        let now = self.millis.get();
        self.millis.set(now.saturating_add(self.step));
        Ok(Duration::from_millis(now))
    }

    fn since_1970(&self) -> io::Result<Duration> {
        self.monotonic()
    }
}

/// A line that a signal breaks off first, that then gives bytes, and that fails after some quiet reads.
#[derive(Drop)]
pub struct Cut<'a> {
    bytes: &'a [u8],
    is_broken_off: bool,
    quiet: u32,
}

impl<'a> Cut<'a> {
    pub fn new(bytes: &'a [u8], quiet: u32) -> Cut<'a> {
        Cut {
            bytes,
            is_broken_off: false,
            quiet,
        }
    }
}

impl Read for Cut<'_> {
    fn read(&mut self, buffer: &mut [u8]) -> io::Result<usize> {
        if !self.is_broken_off {
            self.is_broken_off = true;
            return Err(io::Error::from(io::ErrorKind::Interrupted));
        }
        let count = self.bytes.read(buffer)?;
        if count > 0 {
            return Ok(count);
        }
        if self.quiet == 0 {
            return Err(io::Error::other("the cable is cut"));
        }
        self.quiet -= 1;
        Ok(0)
    }
}
