//! What an operand has to be, and whether it is that.

ghost use Rattle.std.specs.Prelude.{◌≡◌, [], IfOk, Some, length, map};
ghost use Rattle.std.specs.List.{list_any};
ghost use Rattle.vx_java.specs.Ids.{HasClassNumbers};
ghost use Rattle.vx_types.specs.Fits.{fits};
ghost use Rattle.vx_types.specs.Flow.{is_of, meets};
ghost use Rattle.vx_types.specs.Plain.{computes, gives, takes};
ghost use Rattle.vx_types.specs.Rows.{want};

use std::alloc::{AllocError, Global};
use vx_java::Sort;
use vx_link::Program;
use vx_list::Items;
use vx_types::{Row, VerType, Want, fits};

/// Whether a type is that of values of a sort.
pub fn is_of(sort: Sort, one: &VerType) -> bool
    ensures { result ≡ is_of sort one.now }
{
    matches!(
        (sort, one),
        (Sort::Int, VerType::Int)
            | (Sort::Long, VerType::Long)
            | (Sort::Reference, VerType::Null | VerType::Ref(_, _))
    )
}

fn fits_one(program: &Program, one: &VerType, these: &[VerType]) -> bool
    requires { HasClassNumbers program.now }
    ensures { result ≡ list_any (fits program.now one.now) these.now }
{
    for other in these {
        if fits(program, one, other) {
            return true;
        }
    }
    false
}

/// Whether an operand of a type is what is wanted.
pub fn meets(program: &Program, wanted: &Want, one: &VerType) -> bool
    requires { HasClassNumbers program.now }
    ensures { result ≡ meets program.now wanted.now one.now }
{
    match wanted {
        Want::OfSort(sort) => is_of(*sort, one),
        Want::Fits(other) => fits(program, one, other),
        Want::FitsBoth(other, another) => {
            fits(program, one, other) && fits(program, one, another)
        }
        Want::FitsOne(these) => fits_one(program, one, these.as_slice()),
    }
}

/// What a value of a type has to be; nothing is a float or a double.
pub fn wanted_type(alloc: Global, item: Option<VerType>) -> Want
    ensures { result ≡ want item }
{
    match item {
        Some(item) => Want::Fits(item),
        None => Want::FitsOne(Items::of(Vec::new(alloc))),
    }
}

/// Values of these sorts.
pub fn of_sorts(alloc: Global, sorts: &[Sort]) -> Result<Vec<Want>, AllocError>
    ensures { IfOk result (λ wants. wants.items ≡ map Want.OfSort sorts.now) }
{
    let mut wants = Vec::new(alloc);
    for sort in sorts {
        wants.push(Want::OfSort(*sort))?;
    }
    Ok(wants)
}

/// Takes values of these sorts, the top first, and gives one.
pub fn computes(alloc: Global, sorts: &[Sort], given: VerType) -> Result<Row, AllocError>
    ensures { IfOk result (λ row. row ≡ computes (map Want.OfSort sorts.now) given) }
{
    let wants = of_sorts(alloc, sorts)?;
    Ok(Row::Takes(Items::of(wants), Some(given)))
}

/// Takes values of these sorts, the top first, and gives none.
pub fn takes(alloc: Global, sorts: &[Sort]) -> Result<Row, AllocError>
    ensures { IfOk result (λ row. row ≡ takes (map Want.OfSort sorts.now)) }
{
    Ok(Row::Takes(Items::of(of_sorts(alloc, sorts)?), None))
}

/// Takes nothing, and gives a value.
pub fn gives(alloc: Global, given: VerType) -> Row
    ensures { result ≡ gives given }
{
    Row::Takes(Items::of(Vec::new(alloc)), Some(given))
}

/// Takes what is wanted, the top first, and gives a value.
pub fn computes_of(wants: Vec<Want>, given: VerType) -> Row
    ensures { result ≡ computes wants.items given }
{
    Row::Takes(Items::of(wants), Some(given))
}
