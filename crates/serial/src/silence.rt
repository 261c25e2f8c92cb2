//! How long nothing has come from the line, and whether the line has gone.

ghost use Rattle.std.specs.Prelude.{◌≡◌};
ghost use Rattle.serial.specs.Silences.{heard, finish};

/// What ends the serving of a line.
#[derive(Clone, Copy, Debug, PartialEq, Eq)]
pub enum Finish {
    /// So many reads in a row were quiet as the program was told to wait for.
    Quiet,
    /// Reads are quiet at once, with no time-out: the terminal was hung up, or it is the end of a file.
    Gone,
}

/// So many quiet reads are looked at together.
pub const QUIET_READS: u64 = 100;

/// A line whose quiet reads take less than this together has gone, in milliseconds. With a time-out of a tenth
/// of a second they take ten seconds.
pub const LEAST_TIME: u64 = 1_000;

/// Quiet reads in a row, and when the last hundred of them began.
#[derive(Clone, Copy, Debug, PartialEq, Eq)]
pub struct Silence {
    pub reads: u64,
    pub since: u64,
}

impl Silence {
    /// Counts a read of so many bytes, and tells whether serving ends with it; none while the line goes on. It is quiet
    /// after so many quiet reads as are given.
    pub fn heard(&mut self, count: usize, now: u64, quiet: Option<u32>) -> Option<Finish>
        ensures kept { self.new ≡ heard self.old count now }
        ensures told { result ≡ finish self.old count now quiet }
    {
        if count > 0 {
            *self = Silence {
                reads: 0,
                since: now,
            };
            return None;
        }
        self.reads = self.reads.saturating_add(1);
        let whole = self.reads % QUIET_READS == 0;
        let gone = whole && now.saturating_sub(self.since) < LEAST_TIME;
        if whole {
            self.since = now;
        }
        if gone {
            return Some(Finish::Gone);
        }
        match quiet {
            Some(reads) if self.reads >= u64::from(reads) => Some(Finish::Quiet),
            _ => None,
        }
    }
}
