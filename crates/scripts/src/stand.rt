//! What stands on the bench: nothing until a head line makes an end, then that end to the last
//! line.

ghost use Rattle.std.specs.Prelude.{◌≡◌, IfOk, IsSome, option_map};
ghost use Rattle.end.specs.Ends.{head_of};
ghost use Rattle.heads.specs.Any.{kind_of};
ghost use Rattle.scripts.specs.Scripts.{kind_asked};

use crate::line::Line;
use crate::play::{not_understood, play};
use end::End;
use heads::AnyHead;
use std::io;

/// An end over one of our heads, once there is one.
pub type Stand = Option<End<AnyHead>>;

// A line with nothing on the bench: the head that it asks for stands there then.
fn begin(rt: &impl Print, line: Line) -> io::Result<Stand>
    ensures { IfOk result (λ stand. option_map (λ end. kind_of (head_of end)) stand ≡ kind_asked line) }
{
    match line {
        Line::Blank => Ok(None),
        Line::Head(kind) => {
            println!(rt; "made")?;
            Ok(Some(End::make(AnyHead::new(kind))))
        }
        _ => {
            not_understood(rt)?;
            Ok(None)
        }
    }
}

/// What stands there after a line.
pub fn go_on(stand: Stand, rt: &impl Print, line: Line) -> io::Result<Stand>
    ensures { IsSome stand → IfOk result IsSome }
{
    match stand {
        None => begin(rt, line),
        Some(end) => Ok(Some(play(rt, end, line)?)),
    }
}
