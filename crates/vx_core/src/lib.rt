//! The core classes as class files: the part of the class library of Java SE 7 that a program may use.
#![tactic(auto)]

mod body;
mod draft;
mod entries;
mod file;
mod forms;
mod row;
mod table;

ghost use Rattle.std.specs.Prelude.{◌≡◌, IfOk};
ghost use Rattle.vx_link.specs.CoreFiles.{core_files, native_numbers};

use draft::{
    Draft, put_errors, put_exceptions, put_first, put_general, put_system, put_texts, put_values,
};
use std::alloc::{AllocError, Global};
use vx_link::CoreList;
use vx_list::Items;

/// The class files of the core classes, in their order, and the numbers of their native methods.
pub fn core(alloc: Global) -> Result<CoreList, AllocError>
    ensures classes { IfOk result (λ core. core.classes ≡ core_files) }
    ensures natives { IfOk result (λ core. core.natives ≡ native_numbers) }
{
    let mut draft = Draft::new(alloc);
    put_first(alloc, &mut draft)?;
    put_texts(alloc, &mut draft)?;
    put_system(alloc, &mut draft)?;
    put_values(alloc, &mut draft)?;
    put_general(alloc, &mut draft)?;
    put_exceptions(alloc, &mut draft)?;
    put_errors(alloc, &mut draft)?;
    let Draft { classes, natives } = draft;
    Ok(CoreList {
        classes: Items::of(classes),
        natives: Items::of(natives),
    })
}
