//! The row search: which row of a table, if any, admits a body.

ghost use Rattle.std.specs.Prelude.{◌≡◌};
ghost use Rattle.std.specs.List.{list_any};
ghost use Rattle.std.specs.Option.{ok_or};
ghost use Rattle.rows.specs.Search.{first_of, fault_of, found};
ghost use Rattle.rows.specs.Admitted.{covers, admits};

use crate::faults::RowFault;
use crate::row::{Body, Row};

// Whether some row has a body's category and code.
fn known<R: Row>(rows: &[R], body: &Body<'_>) -> bool
    ensures { result ≡ list_any (covers R.Row body.now) rows.now }
{
    rows.iter().any(|row| row.covers(body))
}

// What is wrong with a body that no row admits.
fn fault<R: Row>(rows: &[R], body: &Body<'_>) -> RowFault
    ensures { result ≡ fault_of (list_any (covers R.Row body.now) rows.now) }
{
    if known(rows, body) {
        RowFault::NoSuchOperands
    } else {
        RowFault::NoSuchCode
    }
}

// The first row that admits a body, by its place, with what it makes of it; or what is wrong with the body.
#[inline(always)]
fn search<R: Row>(rows: &[R], body: &Body<'_>) -> Result<(usize, R::Meaning), RowFault>
    ensures { result ≡ ok_or (first_of (admits R.Row body.now) rows.now)
        (fault_of (list_any (covers R.Row body.now) rows.now)) }
{
    // A loop: nothing is made for a row that has another category or code, not even an empty answer.
    for (i, row) in rows.iter().enumerate() {
        if row.covers(body) {
            if let Some(meaning) = row.read(body) {
                return Ok((i, meaning));
            }
        }
    }
    Err(fault(rows, body))
}

/// Reads a body behind its first byte: the first row that admits it, by its place, with what it
/// makes of it.
#[inline(always)]
pub fn find_row<R: Row>(rows: &[R], body: &[u8]) -> Result<(usize, R::Meaning), RowFault>
    ensures { result ≡ found R.Row.has R.Row.reads rows.now body.now }
{
    let body = Body::of(body).ok_or(RowFault::NoSuchCode)?;
    search(rows, &body)
}
