//! The words with which the program is called: `HEAD [TICK_MS [QUIET]]`.

ghost use Rattle.std.specs.Prelude.{◌≡◌, map};
ghost use Rattle.serial.specs.Words.{arguments, head_asked, length_of, reads_of, decimal};

use crate::ticks::TickLength;
use heads::HeadKind;
use thiserror::Error;

/// What the program was called with.
#[derive(Clone, Copy, Debug, PartialEq, Eq)]
pub struct Arguments {
    pub head: HeadKind,
    pub tick: TickLength,
    /// After how many quiet reads in a row to end; with none it goes on.
    pub quiet: Option<u32>,
}

/// What is wrong with the words.
#[derive(Clone, Copy, Debug, PartialEq, Eq, Error)]
pub enum ArgumentsError {
    #[error("a head is missing")]
    NoHead,
    #[error("there is no such head")]
    NoSuchHead,
    #[error("TICK_MS is a number from 1 to 60000")]
    NoTickLength,
    #[error("QUIET is a number from 1 to 4294967295")]
    NoCountOfReads,
    #[error("there is a word too many")]
    TooMany,
}

// A decimal number of digits alone, if it fits 32 bits.
fn number_of(word: &str) -> Option<u32>
    ensures { result ≡ decimal word.now }
{
    if word.starts_with('+') {
        return None;
    }
    word.parse().ok()
}

fn head_of(word: &str) -> Result<HeadKind, ArgumentsError>
    ensures { result ≡ head_asked word.now }
{
    word.parse().map_err(|_| ArgumentsError::NoSuchHead)
}

fn tick_length_of(word: &str) -> Result<TickLength, ArgumentsError>
    ensures { result ≡ length_of word.now }
{
    number_of(word)
        .and_then(TickLength::new)
        .ok_or(ArgumentsError::NoTickLength)
}

fn quiet_reads_of(word: &str) -> Result<u32, ArgumentsError>
    ensures { result ≡ reads_of word.now }
{
    number_of(word)
        .filter(|reads| *reads > 0)
        .ok_or(ArgumentsError::NoCountOfReads)
}

impl Arguments {
    /// The words as arguments, or what is wrong with the first that is wrong.
    pub fn parse(words: &[&str]) -> Result<Arguments, ArgumentsError>
        ensures { result ≡ arguments (map (λ w. w.now) words.now) }
    {
        let (head, tick, quiet) = match words {
            [] => return Err(ArgumentsError::NoHead),
            [head] => (head_of(head)?, TickLength::USUAL, None),
            [head, tick] => (head_of(head)?, tick_length_of(tick)?, None),
            [head, tick, quiet] => (
                head_of(head)?,
                tick_length_of(tick)?,
                Some(quiet_reads_of(quiet)?),
            ),
            _ => return Err(ArgumentsError::TooMany),
        };
        Ok(Arguments { head, tick, quiet })
    }
}
