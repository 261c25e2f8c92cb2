//! The inquiry rows: what packets ask of whatever can be looked at.

ghost use Rattle.std.specs.Prelude.{◌≡◌};
ghost use Rattle.rows.specs.Inquiries.{inquiry_asked, read_inquiry as inquiry_read};

use crate::codes::Codes::{Levels, Modes, One};
use crate::faults::RowFault;
use crate::find::find_row;
use crate::inquiry::Inquiry;
use crate::table::{OperandForm, TableRow, row};
use head::Setting;
use head::Setting::{Focus, Identity, Pan, Power, Zoom};

/// What stands behind an inquiry's category and code: nothing.
#[derive(Clone, Copy, PartialEq, Eq, Debug)]
pub struct NoOperands;

// What a setting is answered in is its own, whatever row asks for it.
impl OperandForm for NoOperands {
    type Meaning = Inquiry;

    ghost makes = { inquiry_asked };

    #[inline(always)]
    fn read(&self, setting: Setting, operands: &[u8]) -> Option<Inquiry> {
        if operands.is_empty() {
            Inquiry::of(setting)
        } else {
            None
        }
    }
}

/// A row of the inquiry table.
pub type InquiryRow = TableRow<NoOperands>;

/// The inquiry rows, in the order in which they are tried.
pub const INQUIRIES: [InquiryRow; 7] = [
    // power
    row!(0x04, One(0x00, Power), NoOperands),
    // zoom
    row!(0x04, One(0x47, Zoom), NoOperands),
    // focus
    row!(0x04, One(0x48, Focus), NoOperands),
    // identity
    row!(0x04, One(0x22, Identity), NoOperands),
    // the settings of one digit
    row!(0x04, Modes, NoOperands),
    // the settings of two digits
    row!(0x04, Levels, NoOperands),
    // pan and tilt
    row!(0x06, One(0x12, Pan), NoOperands),
];

/// Reads an inquiry behind its first byte, `09`: the place of the row that admits it, from 0, and
/// what it asks.
#[tactic(auto, unfolding(crate::specs::Inquiries::read_inquiry))]
#[inline(always)]
pub fn read_inquiry(body: &[u8]) -> Result<(usize, Inquiry), RowFault>
    ensures { result ≡ inquiry_read body.now }
{
    find_row(&INQUIRIES, body)
}
