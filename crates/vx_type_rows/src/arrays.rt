//! Arrays and their elements (JVMS 6.5 newarray, anewarray, multianewarray, iaload, iastore and their kin).

ghost use Rattle.std.specs.Prelude.{◌≡◌, ◌<◌, ◌^◌, ◌∷◌, ◌++◌, [], IfOk, OnOk, length, replicate};
ghost use Rattle.vx_java.specs.Ids.{HasClassNumbers};
ghost use Rattle.vx_types.specs.Plain.{computes, int};
ghost use Rattle.vx_types.specs.Rows.{any_array, arrays_of, base_of_number, load_element, new_grid, new_primitives, new_references, primitives, references, store_element, stored_in};

use crate::wants::{computes, computes_of, of_sorts};
use std::alloc::{AllocError, Global};
use vx_desc::Base;
use vx_java::{Element, Sort, class_named};
use vx_link::Program;
use vx_list::Items;
use vx_types::{ElementType, Row, VerType, Want, arrays_over, object_class, ref_of};

/// The arrays of a primitive type.
fn primitives(base: Base) -> VerType
    ensures { result ≡ primitives base }
{
    VerType::Ref(0, ElementType::Primitives(base))
}

/// The arrays of references.
fn references(program: &Program) -> VerType
    requires { HasClassNumbers program.now }
    ensures { result ≡ references program.now }
{
    VerType::Ref(1, ElementType::Class(object_class(program)))
}

/// The arrays of bytes and of booleans, which have instructions in common.
fn byte_arrays(alloc: Global) -> Result<Want, AllocError>
    ensures { IfOk result (λ w. w ≡ Want.FitsOne (primitives Base.Byte ∷ primitives Base.Bool ∷ [])) }
{
    let mut these = Vec::new(alloc);
    these.push(primitives(Base::Byte))?;
    these.push(primitives(Base::Bool))?;
    Ok(Want::FitsOne(Items::of(these)))
}

/// The arrays that an instruction of elements works on.
fn arrays_of(alloc: Global, program: &Program, element: Element) -> Result<Want, AllocError>
    requires { HasClassNumbers program.now }
    ensures { IfOk result (λ w. w ≡ arrays_of program.now element) }
{
    match element {
        Element::Ints => Ok(Want::Fits(primitives(Base::Int))),
        Element::Longs => Ok(Want::Fits(primitives(Base::Long))),
        Element::References => Ok(Want::Fits(references(program))),
        Element::Bytes => byte_arrays(alloc),
        Element::Chars => Ok(Want::Fits(primitives(Base::Char))),
        Element::Shorts => Ok(Want::Fits(primitives(Base::Short))),
    }
}

/// The arrays of boolean, byte, char and double, behind those that are there.
fn put_first_primitives(these: &mut Vec<VerType>) -> Result<(), AllocError>
    ensures { OnOk result (these.new.items ≡ these.old.items ++ primitives Base.Bool ∷ primitives Base.Byte ∷ primitives Base.Char ∷ primitives Base.Double ∷ []) }
{
    these.push(primitives(Base::Bool))?;
    these.push(primitives(Base::Byte))?;
    these.push(primitives(Base::Char))?;
    these.push(primitives(Base::Double))?;
    Ok(())
}

/// The arrays of float, int, long and short, behind those that are there.
fn put_last_primitives(these: &mut Vec<VerType>) -> Result<(), AllocError>
    ensures { OnOk result (these.new.items ≡ these.old.items ++ primitives Base.Float ∷ primitives Base.Int ∷ primitives Base.Long ∷ primitives Base.Short ∷ []) }
{
    these.push(primitives(Base::Float))?;
    these.push(primitives(Base::Int))?;
    these.push(primitives(Base::Long))?;
    these.push(primitives(Base::Short))?;
    Ok(())
}

/// Any array.
fn any_array(alloc: Global, program: &Program) -> Result<Want, AllocError>
    requires { HasClassNumbers program.now }
    ensures { IfOk result (λ w. w ≡ any_array program.now) }
{
    let mut these = Vec::new(alloc);
    these.push(references(program))?;
    put_first_primitives(&mut these)?;
    put_last_primitives(&mut these)?;
    Ok(Want::FitsOne(Items::of(these)))
}

/// `arraylength`.
pub fn array_length(alloc: Global, program: &Program) -> Result<Row, AllocError>
    requires { HasClassNumbers program.now }
    ensures { IfOk result (λ row. row ≡ computes (any_array program.now ∷ []) VerType.Int) }
{
    let mut wants = Vec::new(alloc);
    wants.push(any_array(alloc, program)?)?;
    Ok(computes_of(wants, VerType::Int))
}

/// An array of a kind below an index.
fn indexed(alloc: Global, program: &Program, element: Element) -> Result<Vec<Want>, AllocError>
    requires { HasClassNumbers program.now }
    ensures { IfOk result (λ wants. wants.items ≡ int ∷ arrays_of program.now element ∷ []) }
{
    let mut wants = of_sorts(alloc, &[Sort::Int])?;
    wants.push(arrays_of(alloc, program, element)?)?;
    Ok(wants)
}

/// `iaload` and its kin.
pub fn load_element(alloc: Global, program: &Program, element: Element) -> Result<Row, AllocError>
    requires { HasClassNumbers program.now }
    ensures { IfOk result (λ row. row ≡ load_element program.now element) }
{
    match element {
        Element::References => Ok(Row::LoadReference),
        Element::Longs => Ok(computes_of(indexed(alloc, program, element)?, VerType::Long)),
        _ => Ok(computes_of(indexed(alloc, program, element)?, VerType::Int)),
    }
}

/// The sort of the elements.
fn stored_in(element: Element) -> Sort
    ensures { Want.OfSort result ≡ stored_in element }
{
    match element {
        Element::Longs => Sort::Long,
        Element::References => Sort::Reference,
        _ => Sort::Int,
    }
}

/// `iastore` and its kin.
pub fn store_element(alloc: Global, program: &Program, element: Element) -> Result<Row, AllocError>
    requires { HasClassNumbers program.now }
    ensures { IfOk result (λ row. row ≡ store_element program.now element) }
{
    let mut wants = of_sorts(alloc, &[stored_in(element), Sort::Int])?;
    wants.push(arrays_of(alloc, program, element)?)?;
    Ok(Row::Takes(Items::of(wants), None))
}

/// The primitive type of a number of `newarray`.
fn base_of_number(number: u32) -> Base
    ensures { result ≡ base_of_number number }
{
    match number {
        0..=4 => Base::Bool,
        5 => Base::Char,
        6 => Base::Float,
        7 => Base::Double,
        8 => Base::Byte,
        9 => Base::Short,
        11 => Base::Long,
        _ => Base::Int,
    }
}

/// `newarray` by the number of its type. A float or a double ends the run.
pub fn new_primitives(alloc: Global, number: u32) -> Result<Row, AllocError>
    ensures { IfOk result (λ row. row ≡ new_primitives number) }
{
    let base = base_of_number(number);
    match base {
        Base::Float | Base::Double => Ok(Row::Ends),
        _ => computes(alloc, &[Sort::Int], primitives(base)),
    }
}

/// `anewarray`, of a class that is there.
pub fn new_references(alloc: Global, program: &Program, name: &[u8]) -> Result<Row, AllocError>
    requires classes { HasClassNumbers program.now }
    requires text { length name.now < 2 ^ 32 }
    ensures { IfOk result (λ row. row ≡ new_references program.now name.now) }
{
    match class_named(program, name) {
        Some(_class) => {
            let given = arrays_over(alloc, program, 1, name)?;
            computes(alloc, &[Sort::Int], given)
        }
        None => Ok(Row::Ends),
    }
}

/// So many lengths.
fn lengths(alloc: Global, dimensions: u8) -> Result<Vec<Want>, AllocError>
    ensures { IfOk result (λ wants. wants.items ≡ replicate dimensions int) }
{
    let mut wants = Vec::new(alloc);
    for _dimension in 0..dimensions {
        wants.push(Want::OfSort(Sort::Int))?;
    }
    Ok(wants)
}

/// `multianewarray`, of a class that is there.
pub fn new_grid(
    alloc: Global,
    program: &Program,
    name: &[u8],
    dimensions: u8,
) -> Result<Row, AllocError>
    requires classes { HasClassNumbers program.now }
    requires text { length name.now < 2 ^ 32 }
    ensures { IfOk result (λ row. row ≡ new_grid program.now name.now dimensions) }
{
    match class_named(program, name) {
        Some(_class) => {
            let given = ref_of(alloc, program, name)?;
            Ok(computes_of(lengths(alloc, dimensions)?, given))
        }
        None => Ok(Row::Ends),
    }
}
