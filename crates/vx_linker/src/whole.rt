//! The whole program of class files that have no fault.

ghost use Rattle.std.specs.Prelude.{◌≡◌, ◌+◌, ◌<◌, ◌^◌, ◌++◌, [], length, All, IfOk};
ghost use Rattle.std.specs.List.{AllByRecursion};
ghost use Rattle.vx_linker.specs.Few.{AreFew, HasFewMembers};
ghost use Rattle.vx_link.specs.Linked.{linked_classes, methods_from, fields_from, program_with, program_of};
ghost use Rattle.vx_link.specs.Members.{HaveRuns};
ghost use Rattle.vx_link.specs.Tables.{names_of};

use crate::entries::{main_method, option_fields};
use crate::files::Files;
use crate::layout::with_layout;
use crate::parts::{Parts, add_classes};
use std::alloc::{AllocError, Global};
use vx_link::{ClassList, MemberList, Program};
use vx_list::Items;
use vx_model::OptionField;

fn no_parts(alloc: Global) -> Parts
    ensures { result ≡ record { classes = []; methods = []; fields = [] } }
{
    Parts {
        classes: Items::of(Vec::new(alloc)),
        methods: Items::of(Vec::new(alloc)),
        fields: Items::of(Vec::new(alloc)),
    }
}

/// The parts of the folder's classes, and then of the core classes.
fn parts_of(
    alloc: Global,
    files: Files,
    natives: &[Items<u32>],
    options: &[OptionField],
) -> Result<Parts, AllocError>
    requires options { length options.now < 2 ^ 16 }
    requires few { length files.classes.items + length files.core.items < 2 ^ 15 }
    requires members { AllByRecursion HasFewMembers files.classes.items }
    requires core_members { AllByRecursion HasFewMembers files.core.items }
    ensures classes { IfOk result (λ p. p.classes ≡ linked_classes (names_of (files.classes.items ++ files.core.items)) (files.classes.items ++ files.core.items) 0 0) }
    ensures methods { IfOk result (λ p. p.methods ≡ methods_from 0 files.classes.items [] ++ methods_from (length files.classes.items) files.core.items natives.now) }
    ensures fields { IfOk result (λ p. p.fields ≡ fields_from options.now 0 (files.classes.items ++ files.core.items)) }
    ensures few { IfOk result (λ p. AreFew p) }
{
    let Files {
        classes,
        core,
        numbers,
    } = files;
    let folder = add_classes(alloc, &numbers, options, classes, &[], no_parts(alloc))?;
    let both = add_classes(alloc, &numbers, options, core, natives, folder)?;
    Ok(both)
}

fn without_layout(
    alloc: Global,
    parts: Parts,
    options: &[OptionField],
    main: &[u8],
) -> Result<Program, AllocError>
    requires options { length options.now < 2 ^ 16 }
    requires fields { length parts.fields < 2 ^ 32 }
    requires runs { All HaveRuns parts.classes }
    ensures { IfOk result (λ p. p ≡ program_with parts.classes parts.methods parts.fields options.now main.now) }
{
    let main = main_method(parts.classes.as_slice(), parts.methods.as_slice(), main);
    let options = option_fields(alloc, parts.fields.as_slice(), options.len() as u32)?;
    Ok(Program {
        classes: ClassList::of(alloc, parts.classes)?,
        methods: MemberList::of(alloc, parts.methods)?,
        fields: MemberList::of(alloc, parts.fields)?,
        main,
        options,
    })
}

/// The program of class files that have no fault, whose core classes' native methods have these numbers.
pub fn program_of(
    alloc: Global,
    files: Files,
    natives: &[Items<u32>],
    options: &[OptionField],
    main: &[u8],
) -> Result<Program, AllocError>
    requires options { length options.now < 2 ^ 16 }
    requires few { length files.classes.items + length files.core.items < 2 ^ 15 }
    requires members { AllByRecursion HasFewMembers files.classes.items }
    requires core_members { AllByRecursion HasFewMembers files.core.items }
    ensures { IfOk result (λ p. p ≡ program_of files.classes.items files.core.items natives.now options.now main.now) }
{
    let parts = parts_of(alloc, files, natives, options)?;
    let program = without_layout(alloc, parts, options, main)?;
    with_layout(alloc, program)
}
