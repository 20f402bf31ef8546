//! The text of interactions.

ghost use Rattle.std.specs.Prelude.{◌≡◌, ◌++◌, IfOk, OnOk};
ghost use Rattle.std.specs.List.{flat_map};
ghost use Rattle.vx_interact.specs.Text.{entry_text, interactions_text, joined_names, kind_word};

use crate::interaction::Interaction;
use std::alloc::{AllocError, Global};
use vx_report::{Report, name_of};
use vx_value::Name;
use vx_words::put_number;

/// Puts the names of options, joined by commas, or a dash for none.
fn put_names(out: &mut Vec<u8>, names: &[Name], options: &[u32]) -> Result<(), AllocError>
    ensures { OnOk result (out.new.items ≡ out.old.items ++ joined_names names.now options.now) }
{
    let Some((first, rest)) = options.split_first() else {
        return out.extend_from_slice(b"-");
    };
    out.extend_from_slice(name_of(names, *first))?;
    for option in rest {
        out.extend_from_slice(b",")?;
        out.extend_from_slice(name_of(names, *option))?;
    }
    Ok(())
}

/// The word of a kind.
fn kind_word(piece: bool) -> &'static [u8]
    ensures { result.now ≡ kind_word piece }
{
    if piece { b"piece" } else { b"end" }
}

/// Puts an entry's line.
fn put_entry(out: &mut Vec<u8>, names: &[Name], entry: &Interaction) -> Result<(), AllocError>
    ensures { OnOk result (out.new.items ≡ out.old.items ++ entry_text names.now entry.now) }
{
    out.extend_from_slice(kind_word(entry.piece))?;
    out.extend_from_slice(b" ")?;
    put_number(out, entry.index)?;
    out.extend_from_slice(b" ")?;
    put_number(out, entry.options.len() as u64)?;
    out.extend_from_slice(b" ")?;
    put_names(out, names, entry.options.as_slice())?;
    out.extend_from_slice(b"\n")
}

/// Puts a line for each entry.
fn put_entries(out: &mut Vec<u8>, names: &[Name], entries: &[Interaction]) -> Result<(), AllocError>
    ensures { OnOk result (out.new.items ≡ out.old.items ++ flat_map (entry_text names.now) entries.now) }
{
    for entry in entries {
        put_entry(out, names, entry)?;
    }
    Ok(())
}

/// The text of a report's interactions: `varexj interact 1`, then for each `piece` or `end` its number, how many options it
/// depends on and their names, joined by commas, or a dash for none, and at last `done`.
#[tactic(auto, unfolding(crate::specs::Text::interactions_text))]
pub fn interactions_text(
    alloc: Global,
    report: &Report,
    entries: &[Interaction],
) -> Result<Vec<u8>, AllocError>
    ensures { IfOk result (λ text. text.items ≡ interactions_text report.now.options entries.now) }
{
    let mut out = Vec::new(alloc);
    out.extend_from_slice(b"varexj interact 1\n")?;
    put_entries(&mut out, report.options.as_slice(), entries)?;
    out.extend_from_slice(b"done\n")?;
    Ok(out)
}
