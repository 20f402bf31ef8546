//! Linking: from class files to a program, or the first fault (JVMS 5.3, 5.4).

ghost use Rattle.std.specs.Prelude.{◌≡◌, ◌≤◌, All, IfOk, length, ◌<◌};
ghost use Rattle.vx_class.specs.File.{Holds};
ghost use Rattle.vx_link.specs.CoreFiles.{core_files, native_numbers};
ghost use Rattle.vx_link.specs.Linked.{linked_program};
ghost use Rattle.vx_link.specs.Faults.{link_fault};
ghost use Rattle.vx_link.specs.Tables.{HaveOwnNames};
ghost use Rattle.vx_linker.specs.Answers.{Answers, Judges};
ghost use Rattle.vx_model.specs.Models.{IsModel};

use crate::files::Files;
use crate::judging::judge;
use crate::whole::program_of;
use std::alloc::Global;
use vx_class::ClassFile;
use vx_link::{CoreList, LinkFault, Program};
use vx_model::{Model, OptionField};

fn judged(
    alloc: Global,
    classes: Vec<ClassFile>,
    core: Vec<ClassFile>,
    options: &[OptionField],
    main: &[u8],
) -> Result<Files, LinkFault>
    requires { HaveOwnNames core.items }
    ensures judges { Judges result (link_fault classes.items core.items options.now main.now) }
    ensures classes { IfOk result (λ files. files.classes ≡ classes) }
    ensures core { IfOk result (λ files. files.core ≡ core) }
{
    let files = Files::new(alloc, classes, core)?;
    judge(alloc, &files, options, main)?;
    Ok(files)
}

/// The class files of a folder and of the core with tables of their names, where they link with the options of a model and
/// the class whose `main` is run; otherwise their first fault (JVMS 5.3, 5.4; the order of faults is own). The name has `/`
/// between its parts. It takes time linear in the classes.
pub fn linkable(
    alloc: Global,
    classes: Vec<ClassFile>,
    core: CoreList,
    model: &Model,
    main: &[u8],
) -> Result<Files, LinkFault>
    requires { core.classes ≡ core_files }
    ensures judges { Judges result (link_fault classes.items core_files model.now.options main.now) }
    ensures classes { IfOk result (λ files. files.classes ≡ classes) }
    ensures core { IfOk result (λ files. files.core.items ≡ core_files) }
{
    let options = model.options.as_slice();
    judged(alloc, classes, core.classes.into_vec(), options, main)
}

/// The program of a folder's classes with the core classes and the options of a model, whose `main` is that of the named
/// class, or the first fault of the classes. The name has `/` between its parts.
pub fn link(
    alloc: Global,
    classes: Vec<ClassFile>,
    core: CoreList,
    model: &Model,
    main: &[u8],
) -> Result<Program, LinkFault>
    requires few { length classes.items ≤ 1024 }
    requires read { All Holds classes.items }
    requires core { core.classes ≡ core_files }
    requires natives { core.natives ≡ native_numbers }
    requires model { IsModel model.now }
    ensures { Answers result (linked_program classes.items model.now.options main.now) }
{
    let CoreList {
        classes: core,
        natives,
    } = core;
    let options = model.options.as_slice();
    match judged(alloc, classes, core.into_vec(), options, main) {
        Ok(files) => Ok(program_of(alloc, files, natives.as_slice(), options, main)?),
        Err(fault) => Err(fault),
    }
}
