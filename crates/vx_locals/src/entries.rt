//! Constants of the pool that are pushed (JVMS 6.5 ldc, ldc_w, ldc2_w).

ghost use Rattle.std.specs.Prelude.{◌≡◌, ◌<◌, IfOk, Some, length};
ghost use Rattle.vx_pool.specs.Lookups.{entry_of};
ghost use Rattle.vx_pool.specs.declared.pool.Entry.{Entry};
ghost use Rattle.vx_pool.specs.declared.pool.Entry.TheVariants.{Class as ClassEntry};
ghost use Rattle.vx_link.specs.Parts.{class_at, method_at};
ghost use Rattle.vx_space.specs.Sets.{Extends};
ghost use Rattle.vx_heap.specs.Heap.{literal_at};
ghost use Rattle.vx_java.specs.Constants.{push_entry as push_entry_of};
ghost use Rattle.vx_java.specs.Machine.{push, Ref as RefValue};
ghost use Rattle.vx_java.specs.declared.operation.Operation.TheVariants.{PushEntry};
ghost use Rattle.vx_families.specs.Attempts.{IsGiven};
ghost use Rattle.vx_group_states.specs.Sites.{GivesAt, here};
ghost use Rattle.vx_locals.specs.Constants.{constant_of};
ghost use Rattle.vx_locals.specs.declared.constant.Constant.TheVariants.{Class as ClassConstant, LeftOut};

use crate::constant::{Constant, constant_of, nothing, text_of};
use crate::constants::push_constant;
use std::alloc::Global;
use vx_families::{CLASS_WORD, unsupported};
use vx_group::Group;
use vx_group_states::{Site, illegal};
use vx_heap::Heap;
use vx_java::parts::class_of_method;
use vx_outcome::Outcomes;
use vx_space::{Space, SpaceFault};
use vx_value::{ClassId, Name, Slot};

/// Pushes the object of a string literal or of a class name.
fn push_literal<S: Space>(
    alloc: Global,
    site: &Site,
    space: &mut S,
    heap: &Heap<S>,
    group: Group<S>,
    class: ClassId,
    index: u16,
) -> Result<Outcomes<S>, SpaceFault>
    requires given { IsGiven site.now (PushEntry index) (S.sets space.old) heap.now group }
    requires class { class.0 < length site.now.program.now.classes }
    requires entry { index < length (class_at site.now.program.now class.0).pool.entries }
    ensures extends { Extends (S.sets space.old) (S.sets space.new) }
    ensures gives { IfOk result (λ r. GivesAt site.now.program.now (λ _ _ s. push (here site.now s) (RefValue (literal_at heap.now class.0 index)) s.top.operands) (S.sets space.old) (S.sets space.new) group r.items.items heap.now) }
{
    let literal = heap.literal(class, index);
    push_constant(alloc, site, space, group, Slot::Ref(literal))
}

/// Pushes the class object of a class that is there.
fn push_class<S: Space>(
    alloc: Global,
    site: &Site,
    space: &mut S,
    heap: &Heap<S>,
    group: Group<S>,
    class: ClassId,
    index: u16,
    name: u16,
) -> Result<Outcomes<S>, SpaceFault>
    requires given { IsGiven site.now (PushEntry index) (S.sets space.old) heap.now group }
    requires class { class ≡ (method_at site.now.program.now group.top.method.0).class }
    requires entry { constant_of (entry_of (class_at site.now.program.now class.0).pool index) ≡ ClassConstant name }
    ensures extends { Extends (S.sets space.old) (S.sets space.new) }
    ensures gives { IfOk result (λ r. GivesAt site.now.program.now (λ _ _ s. push_entry_of (here site.now s) (entry_of (here site.now s).pool index)) (S.sets space.old) (S.sets space.new) group r.items.items heap.now) }
{
    let resolved = heap.resolved(site.program, class, index);
    match resolved {
        None => {
            let what = Name::of(alloc, text_of(site.program, class, name))?;
            unsupported(alloc, site.program, &group, CLASS_WORD, what)
        }
        Some(_) => push_literal(alloc, site, space, heap, group, class, index),
    }
}

/// Pushes a constant of the pool of the current class.
pub(crate) fn push_entry<S: Space>(
    alloc: Global,
    site: &Site,
    space: &mut S,
    heap: &Heap<S>,
    group: Group<S>,
    index: u16,
) -> Result<Outcomes<S>, SpaceFault>
    requires given { IsGiven site.now (PushEntry index) (S.sets space.old) heap.now group }
    ensures extends { Extends (S.sets space.old) (S.sets space.new) }
    ensures gives { IfOk result (λ r. GivesAt site.now.program.now (λ _ _ s. push_entry_of (here site.now s) (entry_of (here site.now s).pool index)) (S.sets space.old) (S.sets space.new) group r.items.items heap.now) }
{
    let class = class_of_method(site.program, group.top_frame().method);
    match constant_of(site.program, class, index) {
        Constant::Number(value) => push_constant(alloc, site, space, group, value),
        Constant::Literal => push_literal(alloc, site, space, heap, group, class, index),
        Constant::Class(name) => push_class(alloc, site, space, heap, group, class, index, name),
        Constant::LeftOut(word) => {
            let what = nothing(alloc)?;
            unsupported(alloc, site.program, &group, word, what)
        }
        Constant::Unloadable => illegal(alloc, site.program, &group),
    }
}
