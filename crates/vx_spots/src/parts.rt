//! The two parts of the text: of the methods that calls from main lead to, and of the others.

ghost use Rattle.std.specs.Prelude.{◌≡◌, ◌++◌, IfOk, OnOk, codes};
ghost use Rattle.vx_spots.specs.Parts.{IsPartText, IsSpotsText, part_head, part_word};

use crate::entries::order_of;
use crate::kinds::kinds_of;
use crate::ranks::sorted_ranks;
use crate::reasons::{Told, put_kinds};
use std::alloc::{AllocError, Global};
use vx_lines::LineTable;
use vx_link::Program;
use vx_may_end::Spot;
use vx_names::NameTable;
use vx_words::put_number;

/// What the first line of a part begins with.
fn first_word() -> &'static [u8]
    ensures { result.now ≡ codes "unsupported " }
{
    b"unsupported "
}

/// What the first line of a part ends with.
fn part_word(is_reached: bool) -> &'static [u8]
    ensures { result.now ≡ part_word is_reached }
{
    if is_reached {
        b" where calls from main lead\n"
    } else {
        b" elsewhere\n"
    }
}

/// Puts the first line of a part.
#[tactic(auto, unfolding(crate::specs::Parts::part_head))]
fn put_part_head(out: &mut Vec<u8>, is_reached: bool, count: usize) -> Result<(), AllocError>
    ensures { OnOk result (out.new.items ≡ out.old.items ++ part_head is_reached count) }
{
    out.extend_from_slice(first_word())?;
    put_number(out, count)?;
    out.extend_from_slice(part_word(is_reached))
}

/// The part of the methods that are reached, or that of the others.
fn part_text(
    alloc: Global,
    told: &Told<'_>,
    kinds: &NameTable,
    reached: &[bool],
    is_reached: bool,
) -> Result<Vec<u8>, AllocError>
    ensures { IfOk result (λ text. IsPartText told.now.program.now told.now.tables.now told.now.spots.now kinds.now reached.now is_reached text.items) }
{
    let order = order_of(alloc, kinds, reached, is_reached, told.spots)?;
    let ranks = sorted_ranks(alloc, order.as_slice())?;
    let mut out = Vec::new(alloc);
    put_part_head(&mut out, is_reached, ranks.len())?;
    put_kinds(alloc, &mut out, told, order.as_slice(), ranks.as_slice())?;
    Ok(out)
}

/// What the spots of a program lack, in words: first those in methods that are marked as reached, then the others. In each part stands
/// how many things are lacking; each of them with the number of its places, its name or `-`, and what it is, the one with the most
/// places first; and under it each place, as CLASS.NAMEDESC@POSITION with its line, where the tables have one. `at` is a place that no
/// run goes beyond, `may` one where it depends on the run; there up to eight classes of receivers are named. The tables are those of the
/// first classes of the program, and the marks those of its methods by their numbers. Where there is no text, memory was wanting.
pub fn spots_text(
    alloc: Global,
    program: &Program,
    tables: &[LineTable],
    reached: &[bool],
    spots: &[Spot],
) -> Result<Vec<u8>, AllocError>
    ensures { IfOk result (λ text. IsSpotsText program.now tables.now reached.now spots.now text.items) }
{
    let told = Told {
        program,
        tables,
        spots,
    };
    let kinds = kinds_of(alloc, spots)?;
    let mut text = part_text(alloc, &told, &kinds, reached, true)?;
    let others = part_text(alloc, &told, &kinds, reached, false)?;
    text.extend_from_slice(others.as_slice())?;
    Ok(text)
}
