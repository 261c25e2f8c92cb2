//! What a call sends: at most 16 bytes, and how they come into the caller's buffer.

ghost use Rattle.std.specs.Prelude.{◌≡◌, ◌+◌, ◌≤◌, ◌++◌, length};
ghost use Rattle.wire.specs.Line.{over};

use wire::{Bytes, send_at};

/// The least room that a call must be given.
pub const ROOM: usize = 16;

/// Both, one behind the other.
pub(crate) fn both(first: Bytes, second: Bytes) -> Bytes
    requires { length first + length second ≤ 16 }
    ensures { result ≡ first ++ second }
{
    let mut sent = first;
    sent.extend_from_slice(second.as_slice()).unwrap();
    sent
}

/// Puts the bytes at the front of the buffer and tells their count.
#[inline]
pub(crate) fn put(bytes: &[u8], out: &mut [u8]) -> usize
    requires few { length bytes.now ≤ 16 }
    requires room { 16 ≤ length out.old }
    ensures count { result ≡ length bytes.now }
    ensures sent { out.new ≡ over bytes.now out.old }
{
    send_at(out, 0, bytes).unwrap()
}
