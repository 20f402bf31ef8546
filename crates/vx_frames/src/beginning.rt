//! The frames of methods that begin (JVMS 2.6).

ghost use Rattle.std.specs.Prelude.{◌≡◌, IfOk};
ghost use Rattle.vx_space.specs.Sets.{IsKnown};
ghost use Rattle.vx_java.specs.Initialisation.{max_locals};
ghost use Rattle.vx_link.specs.Parts.{method_at};
ghost use Rattle.vx_frames.specs.Entering.{AreArguments, IsBegun};

use crate::locals::put_locals;
use std::alloc::{AllocError, Global};
use vx_cond::Cond;
use vx_frame::Frame;
use vx_link::Program;
use vx_space::Space;
use vx_value::{Kind, MethodId, Slot};

/// How many locals a method asks for; one without code asks for none.
pub fn max_locals(program: &Program, method: MethodId) -> u16
    ensures { result ≡ max_locals (method_at program.now method.0).code }
{
    match program.method(method) {
        Some(method) => match &method.code {
            Some(code) => code.max_locals,
            None => 0,
        },
        None => 0,
    }
}

/// The frame of a method that begins, for a path: its locals begin with the values, of which a long takes two, and the others can't be read.
/// The values have the path as scope, and the same of them are longs at each configuration of it.
pub fn begun<S: Space>(
    alloc: Global,
    program: &Program,
    space: &S,
    path: S::Id,
    kind: Kind,
    method: MethodId,
    values: Vec<Cond<Slot, S>>,
) -> Result<Frame<S>, AllocError>
    requires known { IsKnown (S.sets space.now) path }
    requires values { AreArguments (S.sets space.now) path (max_locals (method_at program.now method.0).code) values.items }
    ensures { IfOk result (IsBegun program.now (S.sets space.now) path kind method values.items) }
{
    let count = max_locals(program, method);
    let mut frame = Frame::new(alloc, space, kind, method, 0, path)?;
    put_locals(alloc, space, &mut frame.locals, values, count)?;
    Ok(frame)
}
