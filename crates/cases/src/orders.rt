//! Orders for the tests.

use head::{Order, Paces, Targets};
use std::test::Fail;

/// An order of targets that name no setting twice.
pub fn order_of(targets: Targets, paces: Paces) -> Result<Order, Fail> {
    Ok(Order::new(targets, paces).ok_or("a setting is named twice")?)
}
