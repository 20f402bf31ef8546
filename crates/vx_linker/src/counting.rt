//! Instance fields counted once for all fields of a program, where the numbers of a class's fields follow one another.

ghost use Rattle.std.specs.Prelude.{◌≡◌, ◌&&◌, ◌<◌, ◌^◌, length, filter, if◌then◌else◌, map, nat_lt, not, true, IfOk, IfSome};
ghost use Rattle.vx_list.specs.Places.{item_or};
ghost use Rattle.vx_link.specs.Parts.{is_static_field};
ghost use Rattle.vx_linker.specs.Cells.{is_run, running_counts, runs};

use crate::layout::is_instance;
use std::alloc::{AllocError, Global};
use vx_link::Program;
use vx_value::FieldId;

fn one_if(test: bool) -> u32
    ensures { result ≡ (if test then 1 else 0) }
{
    if test { 1 } else { 0 }
}

/// For each number of fields how many of the first so many fields of a program are instance fields.
pub fn running_counts(alloc: Global, program: &Program) -> Result<Vec<u32>, AllocError>
    requires { length program.now.fields < 2 ^ 32 }
    ensures { IfOk result (λ counts. counts.items ≡ running_counts program.now) }
{
    let mut counts = Vec::new(alloc);
    let mut count = 0;
    counts.push(count)?;
    for place in 0..program.fields.len() as u32 {
        count += one_if(is_instance(program, FieldId(place)));
        counts.push(count)?;
    }
    Ok(counts)
}

fn first_of(fields: &[FieldId]) -> u32
    ensures { result ≡ item_or (map (λ f. f.0) fields.now) 0 0 }
{
    match fields.first() {
        Some(field) => field.0,
        None => 0,
    }
}

/// Whether the numbers of fields follow one another.
fn is_run(fields: &[FieldId]) -> bool
    ensures { result ≡ is_run fields.now }
{
    let mut next = first_of(fields) as usize;
    for field in fields {
        if field.0 as usize != next {
            return false;
        }
        next += 1;
    }
    true
}

/// For each class whether the numbers of its fields follow one another.
pub fn runs(alloc: Global, program: &Program) -> Result<Vec<bool>, AllocError>
    ensures { IfOk result (λ flags. flags.items ≡ runs program.now) }
{
    let mut flags = Vec::new(alloc);
    for class in program.classes.as_slice() {
        flags.push(is_run(class.fields.as_slice()))?;
    }
    Ok(flags)
}

/// How many instance fields of a run stand before a field of it, or behind its end; elsewhere nothing is said.
pub fn count_in_run(
    program: &Program,
    counts: &[u32],
    fields: &[FieldId],
    before: FieldId,
) -> Option<usize>
    requires counts { counts.now ≡ running_counts program.now }
    requires run { is_run fields.now ≡ true }
    ensures { IfSome result (λ count. count ≡ length (filter (λ f. (not (is_static_field program.now f.0) && nat_lt f.0 before.0)) fields.now)) }
{
    let (first, last) = (first_of(fields) as usize, before.0 as usize);
    if last < first || last - first > fields.len() || last >= counts.len() {
        return None;
    }
    Some((counts[last] - counts[first]) as usize)
}
