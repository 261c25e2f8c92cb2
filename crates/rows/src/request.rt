//! The packet layer: what a body asks for.

ghost use Rattle.std.specs.Prelude.{◌≡◌};
ghost use Rattle.rows.specs.Commands.{read_command as command_read};
ghost use Rattle.rows.specs.Inquiries.{read_inquiry as inquiry_read};
ghost use Rattle.rows.specs.OneRow.{RequestByOneRow};
ghost use Rattle.rows.specs.Requests.{as_command, as_inquiry, read_body};

use crate::command::Command;
use crate::commands::find_command;
use crate::faults::PacketFault;
use crate::inquiries::read_inquiry;
use crate::inquiry::Inquiry;

// The first byte of a command's body.
const COMMAND: u8 = 0x01;

// The first byte of an inquiry's body.
const INQUIRY: u8 = 0x09;

/// What a packet for this end asks for.
#[derive(Clone, Copy, Debug, PartialEq, Eq)]
pub enum Request {
    /// A command: the place of its row, from 0, and what it says.
    Command(usize, Command),
    /// An inquiry.
    Ask(Inquiry),
}

#[inline(always)]
fn command(rest: &[u8]) -> Result<Request, PacketFault>
    ensures { result ≡ as_command (command_read rest.now) }
{
    let (row, command) = find_command(rest)?;
    Ok(Request::Command(row, command))
}

#[inline(always)]
fn asked(rest: &[u8]) -> Result<Request, PacketFault>
    ensures { result ≡ as_inquiry (inquiry_read rest.now) }
{
    let (_, inquiry) = read_inquiry(rest)?;
    Ok(Request::Ask(inquiry))
}

/// Reads a body: `01` begins a command, `09` an inquiry.
#[tactic(auto, using(crate::proofs::OneRow::as_requested))]
#[inline(always)]
pub fn read(body: &[u8]) -> Result<Request, PacketFault>
    ensures is { result ≡ read_body body.now }
    ensures one_row { RequestByOneRow body.now result }
{
    match body {
        [COMMAND, rest @ ..] => command(rest),
        [INQUIRY, rest @ ..] => asked(rest),
        _ => Err(PacketFault::UnknownBody),
    }
}
