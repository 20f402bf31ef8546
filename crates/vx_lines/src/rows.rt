//! The rows in the content of a line table (JVMS 4.7.12).

ghost use Rattle.std.specs.Prelude.{◌≡◌, ◌+◌, ◌*◌, ◌<◌, [], ◌∷◌, ◌++◌, length, MatchOption, OnErr, OnOk};
ghost use Rattle.vx_lines.specs.Tables.{rows_in, table_rows};

use crate::table::LineRow;
use std::alloc::AllocError;
use vx_list::{or_cut_back, put_one};

/// A number of two bytes, the high one first.
pub(crate) fn number_of(high: u8, low: u8) -> u16
    ensures { result ≡ 256 * high + low }
{
    256 * u16::from(high) + u16::from(low)
}

/// The first row in some bytes, and the bytes behind it.
#[tactic(auto, using(crate::proofs::Few::no_row))]
fn first_row(bytes: &[u8]) -> Option<(LineRow, &[u8])>
    ensures rows { MatchOption result (rows_in bytes.now ≡ []) (λ first. rows_in bytes.now ≡ first.0 ∷ rows_in first.1.now) }
    ensures less { MatchOption result (Unit {0}) (λ first. length first.1.now < length bytes.now) }
{
    match bytes {
        [a, b, c, d, rest @ ..] => {
            let row = LineRow {
                start: number_of(*a, *b),
                line: number_of(*c, *d),
            };
            Some((row, rest))
        }
        _ => None,
    }
}

/// Puts the rows in some bytes behind others. Here as below want of memory leaves those as they were.
fn put_rows(bytes: &[u8], rows: &mut Vec<LineRow>) -> Result<(), AllocError>
    ensures ok { OnOk result (rows.new.items ≡ rows.old.items ++ rows_in bytes.now) }
    ensures err { OnErr result (rows.new.items ≡ rows.old.items) }
{
    let held = rows.len();
    let mut left = bytes;
    while let Some((row, behind)) = first_row(left) {
        or_cut_back(put_one(rows, row), rows, held)?;
        left = behind;
    }
    Ok(())
}

/// The bytes of the rows of a table: a count, and so many rows. One of another length has none.
#[tactic(auto, using(crate::proofs::Few::no_table))]
fn row_bytes(content: &[u8]) -> &[u8]
    ensures { rows_in result.now ≡ table_rows content.now }
{
    match content {
        [high, low, rest @ ..] => {
            if rest.len() == 4 * number_of(*high, *low) as usize {
                rest
            } else {
                &[]
            }
        }
        _ => &[],
    }
}

/// Puts the rows of a table behind others.
pub fn put_table(content: &[u8], rows: &mut Vec<LineRow>) -> Result<(), AllocError>
    ensures ok { OnOk result (rows.new.items ≡ rows.old.items ++ table_rows content.now) }
    ensures err { OnErr result (rows.new.items ≡ rows.old.items) }
{
    put_rows(row_bytes(content), rows)
}
