//! The text of a check.

ghost use Rattle.std.specs.Prelude.{◌≡◌, ◌++◌, ◌≤◌, ◌<◌, ◌^◌, IfOk, OnOk, length};
ghost use Rattle.std.specs.List.{flat_map};
ghost use Rattle.vx_check.specs.Text.{checked_text, given_text, number_text, told_line};

use crate::told::{Checked, Told};
use std::alloc::{AllocError, Global};
use vx_cover::put_configuration;
use vx_explain::{Rule, put_rule};
use vx_report::Report;
use vx_value::Name;
use vx_words::put_number;

/// Puts the number of a line, or a dash for none.
fn put_line_number(out: &mut Vec<u8>, line: Option<u64>) -> Result<(), AllocError>
    ensures { OnOk result (out.new.items ≡ out.old.items ++ number_text line) }
{
    match line {
        Some(n) => put_number(out, n),
        None => out.extend_from_slice(b"-"),
    }
}

/// Puts a rule, or a dash where there is no short one.
fn put_given(out: &mut Vec<u8>, names: &[Name], rule: &Option<Rule>) -> Result<(), AllocError>
    ensures { OnOk result (out.new.items ≡ out.old.items ++ given_text names.now rule.now) }
{
    match rule {
        Some(rule) => put_rule(out, names, rule),
        None => out.extend_from_slice(b"-"),
    }
}

/// Puts the line of a way to fail.
fn put_told(alloc: Global, out: &mut Vec<u8>, names: &[Name], told: &Told) -> Result<(), AllocError>
    requires { length names.now < 2 ^ 32 }
    ensures { OnOk result (out.new.items ≡ out.old.items ++ told_line names.now told.now) }
{
    put_number(out, told.number)?;
    out.extend_from_slice(b" ")?;
    put_configuration(alloc, out, names, &told.example)?;
    out.extend_from_slice(b" ")?;
    put_line_number(out, told.line)?;
    out.extend_from_slice(b" ")?;
    out.extend_from_slice(told.end.bytes())?;
    out.extend_from_slice(b" when ")?;
    put_given(out, names, &told.rule)?;
    out.extend_from_slice(b"\n")
}

/// Puts the lines of ways to fail.
fn put_all_told(
    alloc: Global,
    out: &mut Vec<u8>,
    names: &[Name],
    all: &[Told],
) -> Result<(), AllocError>
    requires { length names.now < 2 ^ 32 }
    ensures { OnOk result (out.new.items ≡ out.old.items ++ flat_map (told_line names.now) all.now) }
{
    for told in all {
        put_told(alloc, out, names, told)?;
    }
    Ok(())
}

/// The text of a check: `varexj check 1`, then `of` and how many configurations have an end, `failing` and how many of them fail, for each way to
/// fail a line with how many configurations do, the first of them, the number of the line that they miss, or a dash, their end, `when` and their
/// rule, or a dash where there is no short one, and at last `done`.
#[tactic(auto, unfolding(crate::specs::Text::checked_text))]
pub fn checked_text(
    alloc: Global,
    report: &Report,
    checked: &Checked,
) -> Result<Vec<u8>, AllocError>
    requires { length report.now.options ≤ 64 }
    ensures { IfOk result (λ text. text.items ≡ checked_text report.now.options checked.now) }
{
    let mut out = Vec::new(alloc);
    out.extend_from_slice(b"varexj check 1\nof ")?;
    put_number(&mut out, checked.of)?;
    out.extend_from_slice(b"\nfailing ")?;
    put_number(&mut out, checked.failing)?;
    out.extend_from_slice(b"\n")?;
    put_all_told(
        alloc,
        &mut out,
        report.options.as_slice(),
        checked.told.as_slice(),
    )?;
    out.extend_from_slice(b"done\n")?;
    Ok(out)
}
