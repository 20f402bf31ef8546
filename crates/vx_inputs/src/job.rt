//! The job of `run` over bytes: the program of the class files, and the names of the options.

ghost use Rattle.std.specs.Prelude.{◌≡◌, ◌≤◌, All, MatchResult, Ok, IfOk, length, nat_eq};
ghost use Rattle.std.specs.List.{ends_with};
ghost use Rattle.vx_class.specs.File.{Holds};
ghost use Rattle.vx_model.specs.Models.{IsModel};
ghost use Rattle.vx_plans.specs.Job.{IsNoProgram, is_class_path, is_dimacs_path, program_in, names_of};

use std::alloc::{AllocError, Global};
use vx_class::ClassFile;
use vx_core::core;
use vx_link::{LinkFault, Program};
use vx_linker::link;
use vx_list::Items;
use vx_model::{Model, slashed};
use vx_plans::Status;
use vx_value::Name;

/// Whether a path ends so.
fn ends_in(path: &str, ending: &str) -> bool
    ensures { result ≡ ends_with nat_eq path.now ending.now }
{
    path.ends_with(ending)
}

/// Whether a path names a class file.
pub fn is_class_file(path: &str) -> bool
    ensures { result ≡ is_class_path path.now }
{
    ends_in(path, ".class")
}

/// Whether a path names a model in DIMACS form.
pub fn is_dimacs(path: &str) -> bool
    ensures { result ≡ is_dimacs_path path.now }
{
    ends_in(path, ".cnf") || ends_in(path, ".dimacs")
}

/// The program of class files that link with the core classes, the options of a model and the class whose `main` is run;
/// otherwise the refusal of their first fault. The name of the class may have `.` for `/`.
#[tactic(auto, unfolding(vx_plans::specs::Job::program_in))]
pub fn program_in(
    alloc: Global,
    main: &str,
    model: &Model,
    classes: Vec<ClassFile>,
) -> Result<Program, Status>
    requires few { length classes.items ≤ 1024 }
    requires read { All Holds classes.items }
    requires model { IsModel model.now }
    ensures { MatchResult result (λ program. program_in main.now model.now classes.items ≡ Ok program) (IsNoProgram main.now model.now classes.items) }
{
    let main = slashed(alloc, main.as_bytes())?;
    let core = core(alloc)?;
    match link(alloc, classes, core, model, main.bytes()) {
        Ok(program) => Ok(program),
        Err(LinkFault::NoMemory) => Err(Status::NoMemory),
        Err(fault) => Err(Status::BadLink { fault }),
    }
}

/// The names of a model's options.
pub fn names_of(alloc: Global, model: &Model) -> Result<Items<Name>, AllocError>
    ensures { IfOk result (λ names. names ≡ names_of model.now) }
{
    let mut names = Vec::new(alloc);
    for option in model.options.as_slice() {
        names.push(Name::of(alloc, option.name.bytes())?)?;
    }
    Ok(Items::of(names))
}
