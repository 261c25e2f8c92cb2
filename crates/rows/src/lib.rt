//! What packet bodies mean: one row search over tables of rows, command rows that make orders, and
//! inquiry rows that are answered from whatever can be looked at.

#![tactic(auto)]

mod answers;
mod codes;
mod command;
mod commands;
mod digits;
mod faults;
mod find;
mod inquiries;
mod inquiry;
mod operands;
mod request;
mod row;
mod table;
pub mod theorems;

pub use answers::answer;
pub use codes::Codes;
pub use command::{Command, LensPosition, PanTiltMove};
pub use commands::{COMMANDS, CommandRow, find_command};
pub use faults::{PacketFault, RowFault};
pub use find::find_row;
pub use inquiries::{INQUIRIES, InquiryRow, NoOperands, read_inquiry};
pub use inquiry::{Form, Inquiry};
pub use operands::{Operands, Sense};
pub use request::{Request, read};
pub use row::{Body, Row};
pub use table::{OperandForm, TableRow};
