//! The cells of instance fields: their places in an object, those of the superclasses first.

ghost use Rattle.std.specs.Prelude.{◌≡◌, ◌*◌, ◌<◌, ◌≤◌, ◌^◌, ◌&&◌, length, option_map, nat_lt, not, filter, false, IfOk, All};
ghost use Rattle.vx_list.specs.Places.{item_or};
ghost use Rattle.vx_linker.specs.Few.{HasFewFields};
ghost use Rattle.vx_link.specs.Parts.{is_static_field, field_at};
ghost use Rattle.vx_link.specs.Hierarchy.{chain_within, superclass_of};
ghost use Rattle.vx_linker.specs.Cells.{instance_fields_in, instance_counts, cells_above, fields_before, all_cells, with_cells, is_run, running_counts, runs};
ghost use Rattle.vx_link.specs.Linked.{cell_count, layout, with_layout};

use crate::counting::{count_in_run, running_counts, runs};
use crate::methods::{behind_first, first_number};
use bitflags::Flags;
use std::alloc::{AllocError, Global};
use vx_link::{AccessFlags, LinkedClass, LinkedField, MemberList, Program};
use vx_list::Items;
use vx_value::{ClassId, FieldId};

fn is_static(program: &Program, field: FieldId) -> bool
    ensures { result ≡ is_static_field program.now field.0 }
{
    match program.field(field) {
        Some(field) => field.flags.contains(AccessFlags::STATIC),
        None => false,
    }
}

/// Whether a field is an instance field.
pub fn is_instance(program: &Program, field: FieldId) -> bool
    ensures { result ≡ not (is_static_field program.now field.0) }
{
    !is_static(program, field)
}

fn is_instance_before(program: &Program, field: FieldId, before: FieldId) -> bool
    ensures { result ≡ (not (is_static_field program.now field.0) && nat_lt field.0 before.0) }
{
    is_instance(program, field) && field.0 < before.0
}

fn count_instances(program: &Program, fields: &[FieldId]) -> usize
    ensures { result ≡ length (filter (λ f. not (is_static_field program.now f.0)) fields.now) }
{
    fields
        .iter()
        .filter(|field| is_instance(program, **field))
        .count()
}

fn count_before(program: &Program, fields: &[FieldId], before: FieldId) -> usize
    ensures { result ≡ length (filter (λ f. (not (is_static_field program.now f.0) && nat_lt f.0 before.0)) fields.now) }
{
    fields
        .iter()
        .filter(|field| is_instance_before(program, **field, before))
        .count()
}

/// How many instance fields a class declares.
fn instance_count(program: &Program, class: &LinkedClass) -> u32
    requires { HasFewFields class.now }
    ensures { result ≡ length (instance_fields_in program.now class.now) }
{
    let count = count_instances(program, class.fields.as_slice());
    count as u32
}

/// For each class how many instance fields it declares.
fn instance_counts(alloc: Global, program: &Program) -> Result<Vec<u32>, AllocError>
    requires { All HasFewFields program.now.classes }
    ensures { IfOk result (λ counts. counts.items ≡ instance_counts program.now) }
{
    let mut counts = Vec::new(alloc);
    for class in program.classes.as_slice() {
        counts.push(instance_count(program, class))?;
    }
    Ok(counts)
}

fn number_at(numbers: &[u32], place: u32) -> u32
    ensures { result ≡ item_or numbers.now place 0 }
{
    numbers.get(place as usize).copied().unwrap_or(0)
}

fn superclass_of(program: &Program, class: ClassId) -> Option<ClassId>
    ensures { option_map (λ c. c.0) result ≡ superclass_of program.now class.0 }
{
    match program.class(class) {
        Some(class) => class.superclass,
        None => None,
    }
}

/// How many instance fields a class and its superclasses upward declare, at most so many classes of them.
fn cells_up(program: &Program, counts: &[u32], class: Option<ClassId>, steps: usize) -> u32
    requires counts { counts.now ≡ instance_counts program.now }
    requires few { All HasFewFields program.now.classes }
    requires steps { steps < 2 ^ 15 }
    ensures count { result ≡ cell_count program.now (chain_within program.now steps (option_map (λ c. c.0) class)) }
    ensures few { result ≤ 65536 * steps }
{
    let mut count = 0;
    let mut next = class;
    for _step in 0..steps {
        match next {
            Some(class) => {
                count += number_at(counts, class.0);
                next = superclass_of(program, class);
            }
            None => return count,
        }
    }
    count
}

/// For each class how many instance fields its superclasses declare.
fn cells_above(alloc: Global, program: &Program, counts: &[u32]) -> Result<Vec<u32>, AllocError>
    requires counts { counts.now ≡ instance_counts program.now }
    requires few { All HasFewFields program.now.classes }
    requires classes { length program.now.classes ≤ 2 ^ 15 }
    ensures { IfOk result (λ above. above.items ≡ cells_above program.now) }
{
    let mut above = Vec::new(alloc);
    let steps = program.classes.len().saturating_sub(1);
    for class in program.classes.as_slice() {
        above.push(cells_up(program, counts, class.superclass, steps))?;
    }
    Ok(above)
}

/// How many of the instance fields of a class stand before a field, where it is known whether the numbers of its fields follow one
/// another.
fn count_instances_before(
    program: &Program,
    counts: &[u32],
    run: bool,
    fields: &[FieldId],
    before: FieldId,
) -> usize
    requires counts { counts.now ≡ running_counts program.now }
    requires run { run ≡ is_run fields.now }
    ensures { result ≡ length (filter (λ f. (not (is_static_field program.now f.0) && nat_lt f.0 before.0)) fields.now) }
{
    if run {
        if let Some(count) = count_in_run(program, counts, fields, before) {
            return count;
        }
    }
    count_before(program, fields, before)
}

fn flag_at(flags: &[bool], place: u32) -> bool
    ensures { result ≡ item_or flags.now place false }
{
    flags.get(place as usize).copied().unwrap_or(false)
}

/// How many instance fields of a class stand before a field.
fn fields_before(
    program: &Program,
    counts: &[u32],
    flags: &[bool],
    class: ClassId,
    before: FieldId,
) -> u32
    requires counts { counts.now ≡ running_counts program.now }
    requires runs { flags.now ≡ runs program.now }
    requires few { All HasFewFields program.now.classes }
    ensures count { result ≡ fields_before program.now class.0 before.0 }
    ensures few { result < 65536 }
{
    match program.class(class) {
        Some(row) => {
            let run = flag_at(flags, class.0);
            let fields = row.fields.as_slice();
            let count = count_instances_before(program, counts, run, fields, before);
            count as u32
        }
        None => 0,
    }
}

/// The cell of a field, from the numbers of instance fields above each class.
fn cell_of(
    program: &Program,
    above: &[u32],
    counts: &[u32],
    flags: &[bool],
    field: &LinkedField,
    number: FieldId,
) -> u32
    requires counts { counts.now ≡ running_counts program.now }
    requires runs { flags.now ≡ runs program.now }
    requires field { field.now ≡ field_at program.now number.0 }
    requires above { above.now ≡ cells_above program.now }
    requires few { All HasFewFields program.now.classes }
    requires classes { length program.now.classes ≤ 2 ^ 15 }
    ensures { result ≡ layout program.now number.0 }
{
    if is_static(program, number) {
        return 0;
    }
    number_at(above, field.class.0) + fields_before(program, counts, flags, field.class, number)
}

fn all_cells(alloc: Global, program: &Program, above: &[u32]) -> Result<Vec<u32>, AllocError>
    requires above { above.now ≡ cells_above program.now }
    requires few { All HasFewFields program.now.classes }
    requires classes { length program.now.classes ≤ 2 ^ 15 }
    requires fields { length program.now.fields < 2 ^ 32 }
    ensures { IfOk result (λ cells. cells.items ≡ all_cells program.now) }
{
    let counts = running_counts(alloc, program)?;
    let flags = runs(alloc, program)?;
    let mut cells = Vec::new(alloc);
    for (place, field) in program.fields.as_slice().iter().enumerate() {
        let number = FieldId(place as u32);
        cells.push(cell_of(program, above, &counts, &flags, field, number))?;
    }
    Ok(cells)
}

fn with_cells(
    alloc: Global,
    fields: Vec<LinkedField>,
    cells: &[u32],
) -> Result<Vec<LinkedField>, AllocError>
    ensures { IfOk result (λ laid_out. laid_out.items ≡ with_cells fields.items cells.now) }
{
    let mut laid_out = Vec::new(alloc);
    let mut rest = cells;
    for field in fields {
        laid_out.push(LinkedField {
            cell: first_number(rest),
            ..field
        })?;
        rest = behind_first(rest);
    }
    Ok(laid_out)
}

/// The cell of each field of a program. A class's superclasses are gone through once.
fn cells_of(alloc: Global, program: &Program) -> Result<Vec<u32>, AllocError>
    requires few { All HasFewFields program.now.classes }
    requires classes { length program.now.classes ≤ 2 ^ 15 }
    requires fields { length program.now.fields < 2 ^ 32 }
    ensures { IfOk result (λ cells. cells.items ≡ all_cells program.now) }
{
    let counts = instance_counts(alloc, program)?;
    let above = cells_above(alloc, program, &counts)?;
    all_cells(alloc, program, &above)
}

/// Fields with the cells of a list.
fn laid_out(
    alloc: Global,
    fields: MemberList<LinkedField>,
    cells: &[u32],
) -> Result<MemberList<LinkedField>, AllocError>
    ensures { IfOk result (λ made. made ≡ with_cells fields cells.now) }
{
    let (fields, keys) = fields.into_parts();
    let laid_out = with_cells(alloc, fields, cells)?;
    let fields = MemberList::from_parts(Items::of(laid_out), keys);
    Ok(fields)
}

/// The program with the cells of its instance fields.
pub fn with_layout(alloc: Global, program: Program) -> Result<Program, AllocError>
    requires few { All HasFewFields program.classes }
    requires classes { length program.classes ≤ 2 ^ 15 }
    requires fields { length program.fields < 2 ^ 32 }
    ensures { IfOk result (λ p. p ≡ with_layout program) }
{
    let cells = cells_of(alloc, &program)?;
    let fields = laid_out(alloc, program.fields, &cells)?;
    Ok(Program { fields, ..program })
}
