//! The one way to put packets into a caller's buffer.

ghost use Rattle.std.specs.Prelude.{◌≡◌};
ghost use Rattle.wire.specs.Line.{over_at_if_room, next_if_room};

/// Puts the bytes into the buffer from a place on and tells the place behind them. A buffer that is
/// too short for them gets none and is left as it is.
#[tactic(auto, using(crate::proofs::Sent::over_part))]
pub fn send_at(out: &mut [u8], at: usize, bytes: &[u8]) -> Option<usize>
    ensures next { result ≡ next_if_room at bytes.now out.old }
    ensures sent { out.new ≡ over_at_if_room at bytes.now out.old }
{
    let end = at.checked_add(bytes.len())?;
    if end > out.len() {
        return None;
    }
    out[at..end].copy_from_slice(bytes);
    Some(end)
}
