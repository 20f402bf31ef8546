//! Calls for all configurations of a group at once.

ghost use Rattle.std.specs.Prelude.{◌≡◌, IfOk, true};
ghost use Rattle.vx_families.specs.Attempts.{AttemptsIn, IsAttemptIn, IsGiven};
ghost use Rattle.vx_families.specs.Bounds.{IsBounded};
ghost use Rattle.vx_group_states.specs.Sites.{here};
ghost use Rattle.vx_group_states.specs.Stands.{StandsIn};
ghost use Rattle.vx_heap.specs.Heap.{IsHeapFor};
ghost use Rattle.vx_java.specs.Named.{in_bytes};
ghost use Rattle.vx_link.specs.Names.{Member};
ghost use Rattle.vx_link.specs.Parts.{class_at, no_class};
ghost use Rattle.vx_references.specs.Calls.{IsMethodReference, call_found};
ghost use Rattle.vx_space.specs.Sets.{Extends};
ghost use Rattle.vx_invoke.specs.Called.{IsTarget};
ghost use Rattle.vx_invoke.specs.Calling.{IsCallable, IsMemberOf};
ghost use Rattle.vx_invoke.specs.Named.{is_invoke};

use crate::instances::instance_call;
use crate::statics::static_call;
use crate::target::Target;
use crate::unresolved::unresolved;
use std::alloc::Global;
use vx_copy::clone_arrays;
use vx_desc::is_init;
use vx_group::{Callers, Group};
use vx_group_states::Site;
use vx_heap::Heap;
use vx_java::parts::{class_of_method, descriptor_of_method};
use vx_java::{MemberReference, Mode, Operation};
use vx_link::Program;
use vx_list::Items;
use vx_outcome::Outcomes;
use vx_pool::Pool;
use vx_references::{MethodReference, method_reference, named_member, signature};
use vx_space::{Space, SpaceFault};
use vx_value::{ClassId, MethodId};

/// The pool of a class that the program doesn't have.
fn no_entries(alloc: Global) -> Pool
    ensures { result ≡ no_class.pool }
{
    Pool {
        entries: Items::of(Vec::new(alloc)),
    }
}

/// What the entry of a call in the pool of a class comes to.
fn referenced<S: Space>(
    alloc: Global,
    program: &Program,
    heap: &Heap<S>,
    class: ClassId,
    index: u16,
    mode: Mode,
) -> MethodReference
    requires bounded { IsBounded program.now }
    requires for_program { IsHeapFor program.now heap.now }
    ensures { IsMethodReference program.now (class_at program.now class.0).pool index mode result }
{
    let owner = heap.owner(program, class, index);
    match program.class(class) {
        Some(class) => method_reference(program, &class.pool, index, owner, mode),
        None => method_reference(program, &no_entries(alloc), index, owner, mode),
    }
}

/// The call of a method that is there.
fn found_call<S: Space>(
    alloc: Global,
    site: &Site,
    space: &mut S,
    heap: &mut Heap<S>,
    callers: &mut Callers<S>,
    group: Group<S>,
    target: &Target,
) -> Result<Outcomes<S>, SpaceFault>
    requires { IsCallable site.now (S.sets space.old) heap.old callers.old group target.now }
    ensures extends { Extends (S.sets space.old) (S.sets space.new) }
    ensures ok { IfOk result (λ r. (m : Member) → IsMemberOf site.now.program.now group target.now m → AttemptsIn site.now (λ s. call_found (here site.now s) target.now.mode m target.now.named.0 target.now.resolved.0) (S.sets space.old) (S.sets space.new) heap.old heap.new callers.old callers.new group r.items.items) }
{
    let method = target.resolved;
    let signature = signature(alloc, descriptor_of_method(site.program, method))?;
    let types = signature.arguments.as_slice();
    match target.mode {
        Mode::Static => static_call(alloc, site, space, heap, callers, group, method, types),
        Mode::Virtual | Mode::Special | Mode::Interface => {
            instance_call(alloc, site, space, heap, callers, group, target, types)
        }
    }
}

/// The target of a call of a member in a method of a class.
fn target_of(
    mode: Mode,
    member: &MemberReference<'_>,
    named: ClassId,
    resolved: MethodId,
    current: ClassId,
) -> Target
    ensures target { IsTarget mode (in_bytes member.now) current.0 result }
    ensures found { (result.named ≡ named) × (result.resolved ≡ resolved) }
{
    Target {
        mode,
        by_interface: member.by_interface,
        is_init: is_init(member.name),
        named,
        resolved,
        current,
    }
}

/// One attempt of a group by a call (JVMS 6.5 invokestatic, invokespecial, invokevirtual, invokeinterface, Java SE 8). What the instruction
/// names is looked at first, then the arguments and the receiver; invokestatic makes its class ready; the method is selected, and its
/// frame pushed, unless that is one frame too many. A native method is left to be carried out, with its arguments on the operands. The
/// clone of an array copies it.
/// `synchronized` has no effect (own). After a refusal heap, callers and group are given up.
pub fn attempt<S: Space>(
    alloc: Global,
    site: &Site,
    space: &mut S,
    heap: &mut Heap<S>,
    callers: &mut Callers<S>,
    operation: Operation,
    group: Group<S>,
) -> Result<Outcomes<S>, SpaceFault>
    requires given { IsGiven site.now operation (S.sets space.old) heap.old group }
    requires stands { StandsIn site.now.program.now (S.sets space.old) heap.old callers.old group }
    requires family { is_invoke operation ≡ true }
    ensures extends { Extends (S.sets space.old) (S.sets space.new) }
    ensures ok { IfOk result (λ r. IsAttemptIn site.now operation (S.sets space.old) (S.sets space.new) heap.old heap.new callers.old callers.new group r.items.items) }
{
    let Operation::Invoke(mode, index) = operation else {
        unreachable!()
    };
    let class = class_of_method(site.program, group.top_frame().method);
    let member = named_member(site.program, class, index);
    match referenced(alloc, site.program, heap, class, index, mode) {
        MethodReference::Found { named, resolved } => {
            let target = target_of(mode, &member, named, resolved, class);
            found_call(alloc, site, space, heap, callers, group, &target)
        }
        MethodReference::Clone(_) => clone_arrays(alloc, site, space, heap, group),
        missing => unresolved(alloc, site, group, missing, &member),
    }
}
