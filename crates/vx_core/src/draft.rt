//! The list of the core classes as far as it is made.

ghost use Rattle.std.specs.Prelude.{◌≡◌, IfOk, OnOk, map};
ghost use Rattle.vx_core.specs.Rows.{row_file, row_number, row_numbers};
ghost use Rattle.vx_core.specs.Drafts.{Adds, HasFirst};

use crate::file::class_file;
use crate::row::{ClassRow, How, MethodRow};
use crate::table::{ERRORS, EXCEPTIONS, FIRST, GENERAL, SYSTEM_CLASSES, TEXTS, VALUES};
use std::alloc::{AllocError, Global};
use vx_class::ClassFile;
use vx_list::{GivenUp, Items};

/// The first core classes, and for each of them and each of its methods the number of a native one.
#[derive(Drop)]
pub struct Draft {
    pub classes: Vec<ClassFile>,
    pub natives: Vec<Items<u32>>,
}

/// The number of a native method, or 0 for another.
#[tactic(auto, unfolding(crate::specs::Rows::row_number))]
fn number_of(how: &How) -> u32
    ensures { result ≡ row_number how.now }
{
    match *how {
        How::Native(number) => number,
        _ => 0,
    }
}

/// The numbers of the native methods of a class.
fn numbers_of(alloc: Global, methods: &[MethodRow]) -> Result<Vec<u32>, AllocError>
    ensures { IfOk result (λ numbers. numbers.items ≡ map (λ m. row_number m.how) methods.now) }
{
    let mut numbers = Vec::new(alloc);
    for method in methods {
        numbers.push(number_of(&method.how))?;
    }
    Ok(numbers)
}

impl Draft {
    ghost use Rattle.vx_core.specs.Drafts.{HasFirst};

    /// No class.
    #[tactic(auto, unfolding(crate::specs::Drafts::HasFirst))]
    pub fn new(alloc: Global) -> Draft
        ensures { HasFirst 0 result }
    {
        Draft {
            classes: Vec::new(alloc),
            natives: Vec::new(alloc),
        }
    }
}

/// The classes of rows, behind those that are there.
#[tactic(auto, unfolding(crate::specs::Rows::row_numbers))]
fn put_rows(alloc: Global, draft: &mut Draft, rows: &[ClassRow]) -> Result<(), GivenUp>
    ensures { OnOk result (Adds draft.old draft.new (map row_file rows.now) (map row_numbers rows.now)) }
{
    for row in rows {
        let file = class_file(alloc, row)?;
        let numbers = numbers_of(alloc, row.methods)?;
        draft.classes.push(file)?;
        draft.natives.push(Items::of(numbers))?;
    }
    Ok(())
}

/// Object and the interfaces.
pub fn put_first(alloc: Global, draft: &mut Draft) -> Result<(), GivenUp>
    requires { HasFirst 0 draft.old }
    ensures { OnOk result (HasFirst 8 draft.new) }
{
    put_rows(alloc, draft, &FIRST)?;
    Ok(())
}

/// The classes of texts.
pub fn put_texts(alloc: Global, draft: &mut Draft) -> Result<(), GivenUp>
    requires { HasFirst 8 draft.old }
    ensures { OnOk result (HasFirst 10 draft.new) }
{
    put_rows(alloc, draft, &TEXTS)?;
    Ok(())
}

/// Class, PrintStream and System.
pub fn put_system(alloc: Global, draft: &mut Draft) -> Result<(), GivenUp>
    requires { HasFirst 10 draft.old }
    ensures { OnOk result (HasFirst 13 draft.new) }
{
    put_rows(alloc, draft, &SYSTEM_CLASSES)?;
    Ok(())
}

/// The classes of numbers and of enums.
pub fn put_values(alloc: Global, draft: &mut Draft) -> Result<(), GivenUp>
    requires { HasFirst 13 draft.old }
    ensures { OnOk result (HasFirst 18 draft.new) }
{
    put_rows(alloc, draft, &VALUES)?;
    Ok(())
}

/// Throwable and the throwables with its four constructors.
pub fn put_general(alloc: Global, draft: &mut Draft) -> Result<(), GivenUp>
    requires { HasFirst 18 draft.old }
    ensures { OnOk result (HasFirst 25 draft.new) }
{
    put_rows(alloc, draft, &GENERAL)?;
    Ok(())
}

/// The other exceptions.
pub fn put_exceptions(alloc: Global, draft: &mut Draft) -> Result<(), GivenUp>
    requires { HasFirst 25 draft.old }
    ensures { OnOk result (HasFirst 35 draft.new) }
{
    put_rows(alloc, draft, &EXCEPTIONS)?;
    Ok(())
}

/// The other errors, which are the last.
pub fn put_errors(alloc: Global, draft: &mut Draft) -> Result<(), GivenUp>
    requires { HasFirst 35 draft.old }
    ensures { OnOk result (HasFirst 46 draft.new) }
{
    put_rows(alloc, draft, &ERRORS)?;
    Ok(())
}
