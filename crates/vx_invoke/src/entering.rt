//! What comes of the part of a group in which a call comes to one thing.

ghost use Rattle.std.specs.Prelude.{IfOk, None, unwrap_or};
ghost use Rattle.vx_frames.specs.Giving.{GivesIn};
ghost use Rattle.vx_group.specs.Callers.{Keeps};
ghost use Rattle.vx_group.specs.Group.{IsGroupIn};
ghost use Rattle.vx_group_states.specs.Sites.{Gives, here};
ghost use Rattle.vx_heap.specs.Heap.{HeapView};
ghost use Rattle.vx_java.specs.Ids.{HasClassNumbers};
ghost use Rattle.vx_java.specs.Machine.{Native as NativeOf, Raise as RaiseOf, method_text, unsupported as unsupported_of};
ghost use Rattle.vx_java.specs.Operation.{native_word};
ghost use Rattle.vx_link.specs.ClassNames.{class_of_name};
ghost use Rattle.vx_link.specs.Parts.{method_at};
ghost use Rattle.vx_space.specs.Sets.{Sets};
ghost use Rattle.vx_invoke.specs.Called.{MayEnter, called_with};

use crate::arguments::taken;
use crate::call::Call;
use std::alloc::{AllocError, Global};
use vx_families::{NATIVE_WORD, raise, unsupported};
use vx_frames::{MOST_FRAMES, entered};
use vx_group::{Callers, Group};
use vx_group_states::{Site, illegal};
use vx_outcome::{Outcome, Outcomes};
use vx_references::method_name;
use vx_space::{Space, SpaceFault};
use vx_value::{Kind, MethodId};

/// All runs enter a method with the operands on top, unless they have as many frames as a run may have (JVMS 2.6).
fn enter<S: Space>(
    alloc: Global,
    site: &Site,
    space: &S,
    callers: &mut Callers<S>,
    group: Group<S>,
    method: MethodId,
    count: usize,
) -> Result<Outcomes<S>, AllocError>
    requires classes { HasClassNumbers site.now.program.now }
    requires group { IsGroupIn (S.sets space.now) callers.old group }
    requires enter { MayEnter site.now.program.now (S.sets space.now) group count (Call.Enter method) }
    ensures keeps { Keeps callers.old callers.new }
    ensures gives { IfOk result (λ r. (heap : HeapView S S.Id) → GivesIn site.now.program.now (λ _ _. called_with site.now count (Call.Enter method)) (S.sets space.now) (S.sets space.now) callers.old callers.new group r.items.items heap) }
{
    if group.depth() >= MOST_FRAMES {
        return raise(alloc, site.program, group, b"java/lang/StackOverflowError");
    }
    let (caller, arguments) = taken(alloc, group, count)?;
    let called = entered(
        alloc,
        site.program,
        space,
        callers,
        caller,
        Kind::Call,
        method,
        arguments,
    )?;
    Outcomes::go(alloc, called)
}

/// All runs call a native method that the machine doesn't have.
fn missing<S: Space>(
    alloc: Global,
    site: &Site,
    group: &Group<S>,
    method: MethodId,
) -> Result<Outcomes<S>, SpaceFault>
    ensures { IfOk result (λ r. (sets : Sets S.Id) → Gives site.now.program.now (λ s. unsupported_of (here site.now s) native_word (method_text site.now.program.now (method_at site.now.program.now method.0))) sets sets group.now r.items.items) }
{
    let name = method_name(alloc, site.program, method)?;
    unsupported(alloc, site.program, group, NATIVE_WORD, name)
}

/// All runs raise an exception of the core class of this name.
pub(crate) fn raised<S: Space>(
    alloc: Global,
    site: &Site,
    part: Group<S>,
    name: &[u8],
) -> Result<Outcomes<S>, SpaceFault>
    requires { HasClassNumbers site.now.program.now }
    ensures { IfOk result (λ r. (sets : Sets S.Id) → Gives site.now.program.now (λ s. RaiseOf (unwrap_or (class_of_name site.now.program.now name.now) 0) None s) sets sets part r.items.items) }
{
    let outcomes = raise(alloc, site.program, part, name)?;
    Ok(outcomes)
}

/// All runs call a native method, whose arguments stay on the operands.
fn native<S: Space>(
    alloc: Global,
    group: Group<S>,
    method: MethodId,
) -> Result<Outcomes<S>, SpaceFault>
    ensures { IfOk result (λ r. (program : _) (sets : Sets S.Id) → Gives program (λ s. NativeOf method.0 s) sets sets group r.items.items) }
{
    let mut outcomes = Outcomes::new(alloc);
    outcomes.push(Outcome::Native { group, method })?;
    Ok(outcomes)
}

/// The part of a group in which a call comes to one thing, with so many operands for the method: it ends, raises, is left to a native
/// method, or enters the method. A part that raises or is left keeps its operands.
pub(crate) fn called_part<S: Space>(
    alloc: Global,
    site: &Site,
    space: &S,
    callers: &mut Callers<S>,
    part: Group<S>,
    call: Call,
    count: usize,
) -> Result<Outcomes<S>, SpaceFault>
    requires classes { HasClassNumbers site.now.program.now }
    requires group { IsGroupIn (S.sets space.now) callers.old part }
    requires enter { MayEnter site.now.program.now (S.sets space.now) part count call }
    ensures keeps { Keeps callers.old callers.new }
    ensures gives { IfOk result (λ r. (heap : HeapView S S.Id) → GivesIn site.now.program.now (λ _ _. called_with site.now count call) (S.sets space.now) (S.sets space.now) callers.old callers.new part r.items.items heap) }
{
    match call {
        Call::Illegal => illegal(alloc, site.program, &part),
        Call::Null => raised(alloc, site, part, b"java/lang/NullPointerException"),
        Call::WrongKind => raised(alloc, site, part, b"java/lang/IncompatibleClassChangeError"),
        Call::Abstract => raised(alloc, site, part, b"java/lang/AbstractMethodError"),
        Call::Missing(method) => missing(alloc, site, &part, method),
        Call::Native(method) => native(alloc, part, method),
        Call::Enter(method) => {
            let made = enter(alloc, site, space, callers, part, method, count)?;
            Ok(made)
        }
    }
}
