//! The workload: a program and a model whose sizes are given by a number of options, and whose work by a seed.
#![tactic(auto)]

ghost use Rattle.std.specs.Prelude.{◌≡◌, ◌≤◌, IfOk, length};
ghost use Rattle.vx_gen.specs.Parts.{AreNames, AreShort};
ghost use Rattle.vx_gen.specs.Workload.{Texts, names_of, work_files, work_model};

mod classes;
mod code;
mod model;
mod names;
mod pool;

use classes::{main_file, step_file, stepping_file};
use model::model_of;
use names::first_names;
use std::alloc::{AllocError, Global};
use vx_class::ClassFile;
use vx_model::Model;

/// A program by its class files, and the model of its options.
#[derive(Drop)]
pub struct WorkFiles {
    pub classes: Vec<ClassFile>,
    pub model: Model,
}

/// iload_1, ireturn.
const KEEP: &[u8] = &[0x1b, 0xac];

/// iload_1, iload_2, iadd, iconst_3, iand, ireturn.
const TURN: &[u8] = &[0x1b, 0x1c, 0x60, 0x06, 0x7e, 0xac];

/// The class files, of which that of Main is the first.
fn class_files(alloc: Global, seed: u64, names: &[&str]) -> Result<Vec<ClassFile>, AllocError>
    requires short { AreShort names.now }
    requires few { length names.now ≤ 64 }
    ensures { IfOk result (λ files. (texts : Texts) → AreNames names.now texts → files.items ≡ work_files seed texts) }
{
    let mut files = Vec::new(alloc);
    files.push(main_file(alloc, seed, names)?)?;
    files.push(step_file(alloc)?)?;
    files.push(stepping_file(alloc, "Keep", KEEP)?)?;
    files.push(stepping_file(alloc, "Turn", TURN)?)?;
    Ok(files)
}

/// The workload of a seed and a number of options, from 1 to 64.
pub fn workload(alloc: Global, seed: u64, options: u32) -> Result<WorkFiles, AllocError>
    requires least { 1 ≤ options }
    requires most { options ≤ 64 }
    ensures classes { IfOk result (λ work. work.classes.items ≡ work_files seed (names_of options)) }
    ensures model { IfOk result (λ work. work.model ≡ work_model (names_of options)) }
{
    let names = first_names(options as usize);
    let classes = class_files(alloc, seed, names)?;
    let model = model_of(alloc, names)?;
    Ok(WorkFiles { classes, model })
}
