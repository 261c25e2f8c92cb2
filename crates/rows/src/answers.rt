//! Inquiries answered, from whatever can be looked at.

ghost use Rattle.std.specs.Prelude.{◌≡◌, IfSome, take};
ghost use Rattle.rows.specs.Answers.{answer_looked, pan_tilt_looked};
ghost use Rattle.rows.specs.Told.{TellsTruly};
ghost use Rattle.wire.specs.Line.{over_if_room, count_if_room};

use crate::digits::digits;
use crate::inquiry::{Form, Inquiry};
use head::{Look, Setting};
use wire::send_at;

// Pan and tilt in eight digits, or error 41 without them.
#[tactic(auto, using(crate::proofs::Looks::looked_is))]
#[inline(always)]
fn put_pan_tilt<L: Look>(from: &L, header: u8, out: &mut [u8]) -> Option<usize>
    ensures count { result ≡ count_if_room (pan_tilt_looked L.Look from.now header) out.old }
    ensures sent { out.new ≡ over_if_room (pan_tilt_looked L.Look from.now header) out.old }
{
    if !from.has_pan_tilt() {
        return send_at(out, 0, &[header, 0x60, 0x41, 0xff]);
    }
    let [a, b, c, d] = digits(from.look(Setting::Pan.number())?);
    let [e, f, g, h] = digits(from.look(Setting::Tilt.number())?);
    send_at(out, 0, &[header, 0x50, a, b, c, d, e, f, g, h, 0xff])
}

// Puts the answer to an inquiry at the front of the buffer, in the form of its setting.
#[tactic(auto, using(crate::proofs::Looks::looked_is))]
#[inline(always)]
fn put<L: Look>(from: &L, inquiry: Inquiry, header: u8, out: &mut [u8]) -> Option<usize>
    ensures count { result ≡ count_if_room (answer_looked L.Look from.now header inquiry) out.old }
    ensures sent { out.new ≡ over_if_room (answer_looked L.Look from.now header inquiry) out.old }
{
    let number = inquiry.setting.number();
    match inquiry.form {
        Form::Digit => {
            let [_, _, _, s] = digits(from.look(number)?);
            send_at(out, 0, &[header, 0x50, s, 0xff])
        }
        Form::Level => {
            let [_, _, r, s] = digits(from.look(number)?);
            send_at(out, 0, &[header, 0x50, 0, 0, r, s, 0xff])
        }
        Form::Number => {
            let [p, q, r, s] = digits(from.look(number)?);
            send_at(out, 0, &[header, 0x50, p, q, r, s, 0xff])
        }
        Form::PanTilt => put_pan_tilt(from, header, out),
    }
}

/// Puts the answer to an inquiry at the front of the buffer, behind the reply's header, and tells
/// the count; a buffer that is too short for it is left as it is. That the answer tells the values
/// that are looked at follows from its bytes.
#[inline(always)]
pub fn answer<L: Look>(from: &L, inquiry: Inquiry, header: u8, out: &mut [u8]) -> Option<usize>
    ensures count { result ≡ count_if_room (answer_looked L.Look from.now header inquiry) out.old }
    ensures sent { out.new ≡ over_if_room (answer_looked L.Look from.now header inquiry) out.old }
    ensures values { IfSome result
        (λ n. TellsTruly header inquiry (L.Look.setting from.now) (L.Look.pantilt from.now) (take n out.new)) }
{
    put(from, inquiry, header, out)
}
