//! The lines of a throwable, without those that it has in common with the one that it caused.

ghost use Rattle.std.specs.Prelude.{◌≡◌, ◌≤◌, ◌++◌, OnOk, flat_map, length};
ghost use Rattle.vx_trace.specs.TraceText.{in_common, is_same, lines_text, more_line, same_line};

use crate::frame::FrameLine;
use std::alloc::AllocError;
use vx_words::put_number;

fn same_line(line: Option<u16>, other: Option<u16>) -> bool
    ensures { result ≡ same_line line other }
{
    match (line, other) {
        (Some(line), Some(other)) => line == other,
        (None, None) => true,
        (Some(_), None) => false,
        (None, Some(_)) => false,
    }
}

/// Whether two frames have the same class, method, file and line.
fn is_same(line: &FrameLine, other: &FrameLine) -> bool
    ensures { result ≡ is_same line.now other.now }
{
    line.text.bytes() == other.text.bytes() && same_line(line.line, other.line)
}

/// How many lines two lists have in common at their ends.
fn in_common(above: &[FrameLine], lines: &[FrameLine]) -> usize
    ensures count { result ≡ in_common above.now lines.now }
    ensures within { result ≤ length lines.now }
{
    let most = above.len().min(lines.len());
    for common in 0..most {
        let line = &above[above.len() - 1 - common];
        let other = &lines[lines.len() - 1 - common];
        if !is_same(line, other) {
            return common;
        }
    }
    most
}

fn put_all(out: &mut Vec<u8>, lines: &[FrameLine]) -> Result<(), AllocError>
    ensures { OnOk result (out.new.items ≡ out.old.items ++ flat_map (λ line. line.text) lines.now) }
{
    for line in lines {
        out.extend_from_slice(line.text.bytes())?;
    }
    Ok(())
}

/// Puts how many lines were left out.
fn put_more(out: &mut Vec<u8>, common: usize) -> Result<(), AllocError>
    ensures { OnOk result (out.new.items ≡ out.old.items ++ more_line common) }
{
    if common == 0 {
        return Ok(());
    }
    out.extend_from_slice(b"\t... ")?;
    put_number(out, common)?;
    out.extend_from_slice(b" more\n")
}

/// Puts the lines of a throwable, without those that it has in common with the one above.
pub(crate) fn put_lines(
    out: &mut Vec<u8>,
    above: &[FrameLine],
    lines: &[FrameLine],
) -> Result<(), AllocError>
    ensures { OnOk result (out.new.items ≡ out.old.items ++ lines_text above.now lines.now) }
{
    let common = in_common(above, lines);
    put_all(out, &lines[..lines.len() - common])?;
    put_more(out, common)
}
