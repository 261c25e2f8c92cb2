//! What the definitions of this crate mean: statements that the check holds them to.

ghost use Rattle.rules.specs.Modes.{ModesRowByRow};
ghost use Rattle.rules.specs.Orders.{PacketsAreReadByTheirRow};
ghost use Rattle.rules.specs.Replies.{RepliesReadBack};
ghost use Rattle.rules.specs.Ring.{EachPacketMeetsOneRule, WhatBecomesOfPackets};

use rows::theorems::{an_order_is_read_by_one_row, one_byte_off_is_no_order};

/// A reply that is sent is read as itself, its socket being the low digit that is on the line.
pub fn replies_read_back()
    ensures { RepliesReadBack }
{}

/// Every packet meets just one rule of the ring, whatever the address.
pub fn each_packet_meets_one_rule()
    ensures { EachPacketMeetsOneRule }
{}

/// What becomes of a packet by its sender and receiver: what is from this end is taken off, what is from another end
/// or for another is sent on, and with no address everything but the two broadcasts that every end obeys.
pub fn what_becomes_of_packets()
    ensures { WhatBecomesOfPackets }
{}

/// When a command of each row is forbidden, in the words of the table of modes: by power, by freeze, and by the modes
/// that the row needs.
pub fn modes_row_by_row()
    ensures { ModesRowByRow }
{}

/// A packet that the rules of the ring leave to the rows is read as an order exactly when one row admits its body, and
/// then it is that row's order; every packet for an end that a row admits is left to them; and one with a byte more or
/// less than its row has is read as none.
pub fn packets_are_read_by_their_row()
    ensures { PacketsAreReadByTheirRow }
{
    an_order_is_read_by_one_row();
    one_byte_off_is_no_order();
}
