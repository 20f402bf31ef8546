//! The text of a cover.

ghost use Rattle.std.specs.Prelude.{◌≡◌, ◌++◌, ◌≤◌, ◌<◌, ◌^◌, IfOk, OnErr, OnOk, decimal, length};
ghost use Rattle.std.specs.List.{flat_map};
ghost use Rattle.vx_cover.specs.Text.{configuration_text, cover_text, joined, name_of, options_on, try_text};

use crate::tries::Try;
use std::alloc::{AllocError, Global};
use vx_list::or_cut_back;
use vx_report::{Report, name_of};
use vx_space::Config;
use vx_value::Name;
use vx_words::put_number;

/// The options below a number that are on, ascending.
fn options_on(alloc: Global, options: u32, c: &Config) -> Result<Vec<u32>, AllocError>
    ensures { IfOk result (λ found. found.items ≡ options_on options c.now) }
{
    let mut found = Vec::new(alloc);
    for option in 0..options {
        if c.is_on(option) {
            found.push(option)?;
        }
    }
    Ok(found)
}

/// Puts the names of options, joined by commas, or a dash for none. Want of memory leaves the text as it was.
#[tactic(auto, using(std::proofs::lemmas::List::append_assoc, std::proofs::lemmas::List::take_at))]
fn put_names(out: &mut Vec<u8>, names: &[Name], options: &[u32]) -> Result<(), AllocError>
    ensures ok { OnOk result (out.new.items ≡ out.old.items ++ joined (name_of names.now) options.now) }
    ensures err { OnErr result (out.new.items ≡ out.old.items) }
{
    let Some((first, rest)) = options.split_first() else {
        return out.extend_from_slice(b"-");
    };
    let held = out.len();
    out.extend_from_slice(name_of(names, *first))?;
    for option in rest {
        or_cut_back(out.extend_from_slice(b","), out, held)?;
        or_cut_back(out.extend_from_slice(name_of(names, *option)), out, held)?;
    }
    Ok(())
}

/// Puts the names of the options that are on, joined by commas, or a dash for none: the word of a configuration that commands
/// take. Want of memory leaves the text as it was.
pub fn put_configuration(
    alloc: Global,
    out: &mut Vec<u8>,
    names: &[Name],
    c: &Config,
) -> Result<(), AllocError>
    requires { length names.now < 2 ^ 32 }
    ensures ok { OnOk result (out.new.items ≡ out.old.items ++ configuration_text names.now c.now) }
    ensures err { OnErr result (out.new.items ≡ out.old.items) }
{
    let on = options_on(alloc, names.len() as u32, c)?;
    put_names(out, names, on.as_slice())
}

/// Puts numbers, joined by commas, or a dash for none.
fn put_numbers(out: &mut Vec<u8>, numbers: &[u64]) -> Result<(), AllocError>
    ensures { OnOk result (out.new.items ≡ out.old.items ++ joined decimal numbers.now) }
{
    let Some((first, rest)) = numbers.split_first() else {
        return out.extend_from_slice(b"-");
    };
    put_number(out, *first)?;
    for number in rest {
        out.extend_from_slice(b",")?;
        put_number(out, *number)?;
    }
    Ok(())
}

/// Puts a line.
fn put_try(alloc: Global, out: &mut Vec<u8>, names: &[Name], line: &Try) -> Result<(), AllocError>
    requires { length names.now < 2 ^ 32 }
    ensures { OnOk result (out.new.items ≡ out.old.items ++ try_text names.now line.now) }
{
    out.extend_from_slice(b"try ")?;
    put_configuration(alloc, out, names, &line.configuration)?;
    out.extend_from_slice(b" ")?;
    put_numbers(out, line.ends.as_slice())?;
    out.extend_from_slice(b" ")?;
    put_numbers(out, line.pieces.as_slice())?;
    out.extend_from_slice(b"\n")
}

/// Puts the lines.
fn put_tries(
    alloc: Global,
    out: &mut Vec<u8>,
    names: &[Name],
    tries: &[Try],
) -> Result<(), AllocError>
    requires { length names.now < 2 ^ 32 }
    ensures { OnOk result (out.new.items ≡ out.old.items ++ flat_map (try_text names.now) tries.now) }
{
    for line in tries {
        put_try(alloc, out, names, line)?;
    }
    Ok(())
}

/// The text of a report's cover: `varexj cover 1`, then for each configuration a line `try`, the names of its options that are on,
/// joined by commas, or a dash for none, the number of its end and those of its pieces, joined by commas, as far as no earlier
/// line has them, with a dash for none, and at last `done`.
#[tactic(auto, unfolding(crate::specs::Text::cover_text))]
pub fn cover_text(alloc: Global, report: &Report, tries: &[Try]) -> Result<Vec<u8>, AllocError>
    requires { length report.now.options ≤ 64 }
    ensures { IfOk result (λ text. text.items ≡ cover_text report.now.options tries.now) }
{
    let mut out = Vec::new(alloc);
    out.extend_from_slice(b"varexj cover 1\n")?;
    put_tries(alloc, &mut out, report.options.as_slice(), tries)?;
    out.extend_from_slice(b"done\n")?;
    Ok(out)
}
