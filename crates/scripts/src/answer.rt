//! What a call on the end answers, in words: the bytes that it sent, and its fault if there is one.

ghost use Rattle.std.specs.Prelude.{◌≡◌, ◌==◌, ◌&&◌, is_none, length, option_map, take};
ghost use Rattle.std.specs.Result.{result_err};
ghost use Rattle.end.specs.Faults.{cause_code, count_told};

use end::{Fault, bytes_sent};
use fault::FaultCode;
use hexadecimal::Hex;
use std::fmt;

/// A fault or none, and the bytes sent.
#[derive(Clone, Copy, Debug, PartialEq, Eq)]
pub struct Answer<'a> {
    fault: Option<FaultCode>,
    sent: &'a [u8],
}

impl<'a> Answer<'a> {
    /// The answer of a call that left its buffer so: what it sent stands at the front.
    pub fn new(called: Result<usize, Fault>, buffer: &'a [u8]) -> Answer<'a>
        ensures fault { result.fault ≡ option_map (λ f. cause_code f.cause) (result_err called) }
        ensures sent { result.sent.now ≡ take (count_told called) buffer.now }
    {
        Answer {
            fault: called.err().map(FaultCode::from),
            sent: &buffer[..bytes_sent(called).min(buffer.len())],
        }
    }

    /// Neither a fault nor a byte sent.
    pub fn is_quiet(&self) -> bool
        ensures { result ≡ (is_none self.now.fault && (length self.now.sent.now == 0)) }
    {
        self.fault.is_none() && self.sent.is_empty()
    }
}

impl fmt::Display for Answer<'_> {
    fn fmt<W: fmt::Write>(&self, f: &mut fmt::Formatter<W>) -> fmt::Result {
        if let Some(code) = self.fault {
            let number = code.number;
            let layer = code.layer.number();
            let place = code.place;
            write!(f, "fault {number} layer {layer} place {place} ")?;
        }
        if self.sent.is_empty() {
            return write!(f, "sent nothing");
        }
        let bytes = Hex(self.sent);
        write!(f, "sent {bytes}")
    }
}
