//! The lines of a report: each value with the number of its set's node.

ghost use Rattle.std.specs.Prelude.{◌≡◌, IfOk, drop, true};
ghost use Rattle.std.specs.List.{list_all};
ghost use Rattle.vx_list.specs.Places.{item_or};
ghost use Rattle.vx_report_line.specs.Forms.{is_code};
ghost use Rattle.vx_reporting.specs.Fitting.{are_bytes, is_fitting};
ghost use Rattle.vx_reporting.specs.Listed.{attempts_line, end_line, lines_with, piece_line};

use std::alloc::{AllocError, Global};
use vx_findings::{Piece, Shared};
use vx_report::{AttemptLine, EndLine, Piece as PieceLine};
use vx_space::Space;
use vx_value::End;

/// The number of the next set, and 0 behind the last one.
fn first_number(numbers: &[u64]) -> u64
    ensures { result ≡ item_or numbers.now 0 0 }
{
    numbers.first().copied().unwrap_or(0)
}

fn behind_first(numbers: &[u64]) -> &[u64]
    ensures { result.now ≡ drop 1 numbers.now }
{
    if numbers.is_empty() {
        numbers
    } else {
        &numbers[1..]
    }
}

/// Bytes are numbers below 256.
fn bytes_fit(bytes: &[u8])
    ensures { are_bytes bytes.now ≡ true }
{
    let _len = bytes.len();
}

/// A code is one of 32 bits.
fn code_fits(code: i32)
    ensures { is_code code ≡ true }
{}

/// An end has words of bytes, and a code of 32 bits.
fn end_fits(end: &End)
    ensures { is_fitting end.now ≡ true }
{
    match end {
        End::Return | End::Unfinished => {}
        End::Exit(code) => code_fits(*code),
        End::Uncaught(class) => bytes_fit(class.bytes()),
        End::Unsupported { what, place, .. } => {
            bytes_fit(what.bytes());
            bytes_fit(place.bytes());
        }
        End::Illegal(place) => bytes_fit(place.bytes()),
    }
}

/// The texts with the numbers of their sets.
pub fn pieces_of<S: Space>(
    alloc: Global,
    found: Vec<Shared<Piece, S>>,
    numbers: &[u64],
) -> Result<Vec<PieceLine>, AllocError>
    ensures lines { IfOk result (λ lines. lines.items ≡ lines_with piece_line found.items numbers.now) }
    ensures fit { IfOk result (λ lines. list_all (λ piece. are_bytes piece.text) lines.items ≡ true) }
{
    let mut lines = Vec::new(alloc);
    let mut rest = numbers;
    for shared in found {
        let Piece { stream, text } = shared.value;
        bytes_fit(text.bytes());
        let node = first_number(rest);
        lines.push(PieceLine { node, stream, text })?;
        rest = behind_first(rest);
    }
    Ok(lines)
}

/// The ends with the numbers of their sets.
pub fn ends_of<S: Space>(
    alloc: Global,
    ends: Vec<Shared<End, S>>,
    numbers: &[u64],
) -> Result<Vec<EndLine>, AllocError>
    ensures lines { IfOk result (λ lines. lines.items ≡ lines_with end_line ends.items numbers.now) }
    ensures fit { IfOk result (λ lines. list_all (λ line. is_fitting line.end) lines.items ≡ true) }
{
    let mut lines = Vec::new(alloc);
    let mut rest = numbers;
    for shared in ends {
        let node = first_number(rest);
        end_fits(&shared.value);
        lines.push(EndLine {
            node,
            end: shared.value,
        })?;
        rest = behind_first(rest);
    }
    Ok(lines)
}

/// The numbers of attempts with the numbers of their sets.
pub fn attempts_of<S: Space>(
    alloc: Global,
    spent: Vec<Shared<u64, S>>,
    numbers: &[u64],
) -> Result<Vec<AttemptLine>, AllocError>
    ensures { IfOk result (λ lines. lines.items ≡ lines_with attempts_line spent.items numbers.now) }
{
    let mut lines = Vec::new(alloc);
    let mut rest = numbers;
    for shared in spent {
        let node = first_number(rest);
        lines.push(AttemptLine {
            node,
            attempts: shared.value,
        })?;
        rest = behind_first(rest);
    }
    Ok(lines)
}
