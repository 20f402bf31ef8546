//! How far initialisation has come when a run begins (JVMS 5.5).

ghost use Rattle.std.specs.Prelude.{◌≡◌, ◌≤◌, length, IfOk};
ghost use Rattle.vx_java.specs.Step.{first_inits};
ghost use Rattle.vx_link.specs.CoreFiles.{core_count};

use std::alloc::{AllocError, Global};
use vx_link::Program;
use vx_value::InitState;

/// How many core classes there are, which are the last classes of each program.
const CORE_CLASSES: usize = 46;

/// The states of initialisation with which runs of a program begin: the core classes are initialised, and no other class is.
pub fn first_inits(alloc: Global, program: &Program) -> Result<Vec<InitState>, AllocError>
    requires { core_count ≤ length program.now.classes }
    ensures { IfOk result (λ inits. inits.items ≡ first_inits program.now) }
{
    let mut inits = Vec::new(alloc);
    inits.resize(program.classes.len() - CORE_CLASSES, InitState::Not)?;
    inits.resize(program.classes.len(), InitState::Done)?;
    Ok(inits)
}
