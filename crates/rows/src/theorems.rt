//! What the tables of rows come to: statements over every packet, each the contract of a function that does nothing.

ghost use Rattle.rows.specs.Forms.{FormsFit};
ghost use Rattle.rows.specs.OneRow.{ReadAsByOneRow, OneByteOffIsNoOrder};

/// A packet is read as an order exactly when just one command row admits its body, and then it is
/// that row's order.
pub fn an_order_is_read_by_one_row()
    ensures { ReadAsByOneRow }
{}

/// A packet whose body has the category and a code of a command row, and one operand more or less
/// than the row, is read as no order. Zoom to a position is the exception: with a speed it is one
/// byte longer, and both are rows.
pub fn one_byte_off_is_no_order()
    ensures { OneByteOffIsNoOrder }
{}

/// The form of an answer can tell every value in range of the settings that are told in it.
pub fn forms_fit_their_settings()
    ensures { FormsFit }
{}
