//! What spots lack, by its kind.

ghost use Rattle.std.specs.Prelude.{◌≡◌, ◌++◌, IfOk, OnOk};
ghost use Rattle.vx_spots.specs.Entries.{IsOrder, entries_from, entries_in, entries_of, is_reached};

use crate::kinds::kind_of;
use std::alloc::{AllocError, Global};
use vx_may_end::{Lack, Spot};
use vx_names::NameTable;
use vx_value::MethodId;

/// Something that a spot lacks: the place of its kind among the kinds, that of the spot, and its own in the spot.
#[derive(Clone, Copy, Debug, PartialEq, Eq, PartialOrd, Ord)]
pub struct Entry {
    pub kind: usize,
    pub spot: usize,
    pub lack: usize,
}

/// Puts what a spot lacks.
fn put_entries(
    alloc: Global,
    out: &mut Vec<Entry>,
    kinds: &NameTable,
    spot: usize,
    lacks: &[Lack],
) -> Result<(), AllocError>
    ensures { OnOk result (out.new.items ≡ out.old.items ++ entries_from kinds.now spot 0 lacks.now) }
{
    let mut rest = lacks;
    let mut number = 0;
    while let [lack, behind @ ..] = rest {
        let kind = kind_of(alloc, kinds, lack)?;
        out.push(Entry {
            kind,
            spot,
            lack: number,
        })?;
        rest = behind;
        number += 1;
    }
    Ok(())
}

/// Whether a method is among those that are reached, by a mark for each method.
pub(crate) fn is_reached(reached: &[bool], method: MethodId) -> bool
    ensures { result ≡ is_reached reached.now method.0 }
{
    match reached.get(method.0 as usize) {
        Some(mark) => *mark,
        None => false,
    }
}

/// Puts what a spot lacks, if its method is reached or not, as is wanted.
fn put_wanted(
    alloc: Global,
    out: &mut Vec<Entry>,
    kinds: &NameTable,
    is_wanted: bool,
    number: usize,
    spot: &Spot,
) -> Result<(), AllocError>
    ensures { OnOk result (out.new.items ≡ out.old.items ++ entries_of kinds.now is_wanted number spot.now) }
{
    if !is_wanted {
        return Ok(());
    }
    put_entries(alloc, out, kinds, number, spot.lacks.as_slice())
}

/// What the spots lack whose methods are reached, or the others, in their order.
fn entries_in(
    alloc: Global,
    kinds: &NameTable,
    reached: &[bool],
    is_wanted: bool,
    spots: &[Spot],
) -> Result<Vec<Entry>, AllocError>
    ensures { IfOk result (λ found. found.items ≡ entries_in kinds.now reached.now is_wanted 0 spots.now) }
{
    let mut out = Vec::new(alloc);
    let mut rest = spots;
    let mut number = 0;
    while let [spot, behind @ ..] = rest {
        let is_here = is_reached(reached, spot.method) == is_wanted;
        put_wanted(alloc, &mut out, kinds, is_here, number, spot)?;
        rest = behind;
        number += 1;
    }
    Ok(out)
}

/// The same, by their kinds; those of one kind stay in their order.
pub(crate) fn order_of(
    alloc: Global,
    kinds: &NameTable,
    reached: &[bool],
    is_wanted: bool,
    spots: &[Spot],
) -> Result<Vec<Entry>, AllocError>
    ensures { IfOk result (λ order. IsOrder (entries_in kinds.now reached.now is_wanted 0 spots.now) order.items) }
{
    let mut order = entries_in(alloc, kinds, reached, is_wanted, spots)?;
    order.sort()?;
    Ok(order)
}
