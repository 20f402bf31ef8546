//! The text of a comparison.

ghost use Rattle.std.specs.Prelude.{◌≡◌, ◌++◌, ◌<◌, ◌≤◌, ◌^◌, IfOk, OnOk, length};
ghost use Rattle.std.specs.List.{flat_map};
ghost use Rattle.vx_compare.specs.Text.{all_line, compared_text, counts_text, difference_text, ends_text, example_line, front_lines, given_text, line_text, place_line, way_text, when_line};

use crate::comparing::Compared;
use crate::lines::{Difference, LineDifference};
use crate::ways::Way;
use std::alloc::{AllocError, Global};
use vx_cover::put_configuration;
use vx_explain::{Rule, put_rule};
use vx_report::{Report, put_spelled, word_of_stream};
use vx_space::Config;
use vx_value::Name;
use vx_words::{TEXT, put_number};

/// Puts a rule, or a dash where there is no short one.
fn put_given(out: &mut Vec<u8>, names: &[Name], rule: &Option<Rule>) -> Result<(), AllocError>
    ensures { OnOk result (out.new.items ≡ out.old.items ++ given_text names.now rule.now) }
{
    match rule {
        Some(rule) => put_rule(out, names, rule),
        None => out.extend_from_slice(b"-"),
    }
}

/// Puts the line of a rule, or of a dash where there is no short one.
fn put_when(out: &mut Vec<u8>, names: &[Name], rule: &Option<Rule>) -> Result<(), AllocError>
    ensures { OnOk result (out.new.items ≡ out.old.items ++ when_line names.now rule.now) }
{
    out.extend_from_slice(b"when ")?;
    put_given(out, names, rule)?;
    out.extend_from_slice(b"\n")
}

/// Puts where the first line stands that differs: its stream, and its number there.
fn put_place(out: &mut Vec<u8>, line: &LineDifference) -> Result<(), AllocError>
    ensures { OnOk result (out.new.items ≡ out.old.items ++ place_line line.now) }
{
    out.extend_from_slice(b"line ")?;
    out.extend_from_slice(word_of_stream(line.stream))?;
    out.extend_from_slice(b" ")?;
    put_number(out, line.number)?;
    out.extend_from_slice(b"\n")
}

/// Puts the fronts of the lines that differ.
fn put_fronts(out: &mut Vec<u8>, line: &LineDifference) -> Result<(), AllocError>
    ensures { OnOk result (out.new.items ≡ out.old.items ++ front_lines line.now) }
{
    out.extend_from_slice(b"one ")?;
    put_spelled(out, TEXT, line.one.bytes())?;
    out.extend_from_slice(b"\nother ")?;
    put_spelled(out, TEXT, line.other.bytes())?;
    out.extend_from_slice(b"\n")
}

/// Puts the lines that differ.
fn put_line_difference(out: &mut Vec<u8>, line: &LineDifference) -> Result<(), AllocError>
    ensures { OnOk result (out.new.items ≡ out.old.items ++ line_text line.now) }
{
    put_place(out, line)?;
    put_fronts(out, line)
}

fn put_difference(out: &mut Vec<u8>, difference: &Difference) -> Result<(), AllocError>
    ensures { OnOk result (out.new.items ≡ out.old.items ++ difference_text difference.now) }
{
    match difference {
        Difference::Nothing => Ok(()),
        Difference::Mixed => out.extend_from_slice(b"mixed\n"),
        Difference::Line(line) => put_line_difference(out, line),
    }
}

/// Puts the ends of a way, and how many configurations it has.
fn put_ends(out: &mut Vec<u8>, way: &Way) -> Result<(), AllocError>
    ensures { OnOk result (out.new.items ≡ out.old.items ++ ends_text way.now) }
{
    out.extend_from_slice(b"way ")?;
    out.extend_from_slice(way.one.bytes())?;
    out.extend_from_slice(b"\nother ")?;
    out.extend_from_slice(way.other.bytes())?;
    out.extend_from_slice(b"\ncount ")?;
    put_number(out, way.number)?;
    out.extend_from_slice(b"\n")
}

/// Puts the line of one configuration of a way.
fn put_example(
    alloc: Global,
    out: &mut Vec<u8>,
    names: &[Name],
    example: &Config,
) -> Result<(), AllocError>
    requires { length names.now < 2 ^ 32 }
    ensures { OnOk result (out.new.items ≡ out.old.items ++ example_line names.now example.now) }
{
    out.extend_from_slice(b"example ")?;
    put_configuration(alloc, out, names, example)?;
    out.extend_from_slice(b"\n")
}

/// Puts the lines of a way to differ.
fn put_way(alloc: Global, out: &mut Vec<u8>, names: &[Name], way: &Way) -> Result<(), AllocError>
    requires { length names.now < 2 ^ 32 }
    ensures { OnOk result (out.new.items ≡ out.old.items ++ way_text names.now way.now) }
{
    put_ends(out, way)?;
    put_when(out, names, &way.rule)?;
    put_example(alloc, out, names, &way.example)?;
    put_difference(out, &way.difference)
}

/// Puts the ways to differ.
fn put_ways(
    alloc: Global,
    out: &mut Vec<u8>,
    names: &[Name],
    ways: &[Way],
) -> Result<(), AllocError>
    requires { length names.now < 2 ^ 32 }
    ensures { OnOk result (out.new.items ≡ out.old.items ++ flat_map (way_text names.now) ways.now) }
{
    for way in ways {
        put_way(alloc, out, names, way)?;
    }
    Ok(())
}

/// Puts the rule of all that differ, if there are any.
fn put_all(out: &mut Vec<u8>, names: &[Name], compared: &Compared) -> Result<(), AllocError>
    ensures { OnOk result (out.new.items ≡ out.old.items ++ all_line names.now compared.now) }
{
    if compared.differ == 0 {
        return Ok(());
    }
    put_when(out, names, &compared.rule)
}

/// Puts at how many configurations one of the reports has an end, and at how many of them they differ.
fn put_counts(out: &mut Vec<u8>, compared: &Compared) -> Result<(), AllocError>
    ensures { OnOk result (out.new.items ≡ out.old.items ++ counts_text compared.now) }
{
    out.extend_from_slice(b"of ")?;
    put_number(out, compared.of)?;
    out.extend_from_slice(b"\ndiffer ")?;
    put_number(out, compared.differ)?;
    out.extend_from_slice(b"\n")
}

/// The text of a comparison: `varexj compare 1`, then `of` and at how many configurations one of the reports has an end, `differ` and at how
/// many of them they differ; where they do, the rule of all of them, and for each way to differ its ends, how many configurations, their
/// rule, one of them, and the first line that differs there; and at last `done`.
#[tactic(auto, unfolding(crate::specs::Text::compared_text))]
pub fn compared_text(
    alloc: Global,
    report: &Report,
    compared: &Compared,
) -> Result<Vec<u8>, AllocError>
    requires { length report.now.options ≤ 64 }
    ensures { IfOk result (λ text. text.items ≡ compared_text report.now.options compared.now) }
{
    let names = report.options.as_slice();
    let mut out = Vec::new(alloc);
    out.extend_from_slice(b"varexj compare 1\n")?;
    put_counts(&mut out, compared)?;
    put_all(&mut out, names, compared)?;
    put_ways(alloc, &mut out, names, compared.ways.as_slice())?;
    out.extend_from_slice(b"done\n")?;
    Ok(out)
}
