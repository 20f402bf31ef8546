//! What a call of a native method is given at each configuration of a group, asked once for all methods: its operands are enough and of
//! the types of its descriptor, its receiver is of its class, and its result has room (JVMS 2.6.2, 4.3.3, 4.7.3).

ghost use Rattle.std.specs.Prelude.{◌≡◌, ◌+◌, ◌<◌, ◌≤◌, ◌-◌, ◌^◌, Bool, false, IfOk, List, Option, drop, length, option_map, true};
ghost use Rattle.vx_class.specs.Members.{STATIC};
ghost use Rattle.vx_cond.specs.Cond.{IsCond};
ghost use Rattle.vx_cond.specs.Row.{IsRow};
ghost use Rattle.vx_cond.specs.Slots.{slot_at, slots_at};
ghost use Rattle.vx_families.specs.Attempts.{IsGiven};
ghost use Rattle.vx_group_states.specs.Answering.{operands_at};
ghost use Rattle.vx_java.specs.Ids.{HasClassNumbers, as_class};
ghost use Rattle.vx_java.specs.declared.operation.Operation.{Operation};
ghost use Rattle.vx_link.specs.ClassNames.{class_of_type};
ghost use Rattle.vx_link.specs.Parts.{has, method_at};
ghost use Rattle.vx_link.specs.Signature.{signature};
ghost use Rattle.vx_natives.specs.Arguments.{AreCalls, argument, arguments_with, receiver, receivers, room_for, taken_by, with_receiver};
ghost use Rattle.vx_natives.specs.CallOrder.{call_cmp};
ghost use Rattle.vx_natives.specs.Calls.{call_at, call_given, call_where, with_argument};
ghost use Rattle.vx_space.specs.Sets.{Extends};
ghost use Rattle.vx_value.specs.Slot.{slot_cmp};

use crate::arguments::{argument, received};
use crate::call::{Call, with_argument};
use std::alloc::Global;
use vx_cells::where_room;
use vx_cond::{Cond, Row};
use vx_desc::{Descriptor, JavaType};
use vx_group::Group;
use vx_group_states::Site;
use vx_heap::Heap;
use vx_java::class_of_type;
use vx_java::parts::{class_of_method, descriptor_of_method};
use vx_link::Program;
use vx_references::fields::width_of;
use vx_references::{is_static, signature};
use vx_space::{Space, SpaceFault};
use vx_value::{ClassId, MethodId, Slot};

/// A call of a native method for all configurations of a group.
#[derive(Drop)]
pub struct NativeCall<S: Space> {
    /// How many operands the call takes off.
    pub taken: usize,
    pub calls: Cond<Call, S>,
}

/// The calls with one argument more each, of a type.
fn with_operand<S: Space>(
    program: &Program,
    space: &mut S,
    heap: &Heap<S>,
    descriptor: &[u8],
    java_type: JavaType,
    calls: &Cond<Call, S>,
    operand: &Cond<Slot, S>,
) -> Result<Cond<Call, S>, SpaceFault>
    requires classes { HasClassNumbers program.now }
    requires calls { IsCond call_cmp (S.sets space.old) calls.now }
    requires operand { IsCond slot_cmp (S.sets space.old) operand.now }
    requires scopes { calls.now.scope ≡ operand.now.scope }
    ensures extends { Extends (S.sets space.old) (S.sets space.new) }
    ensures cond { IfOk result (IsCond call_cmp (S.sets space.new)) }
    ensures scope { IfOk result (λ r. r.scope ≡ calls.now.scope) }
    ensures at { IfOk result (λ r. (c : List Bool) → (S.sets space.old).test calls.now.scope c ≡ true → call_at (S.sets space.new) r c ≡ with_argument (call_at (S.sets space.old) calls.now c) (argument program.now heap.now (option_map as_class (class_of_type program.now descriptor.now java_type)) java_type (slot_at (S.sets space.old) operand.now c))) }
{
    let wanted = class_of_type(program, descriptor, &java_type);
    let judged = |call: Call, slot: Slot| -> Call
        ensures { result ≡ with_argument call (argument program.entry.now heap.entry.now wanted java_type slot) }
    { with_argument(call, argument(program, heap, wanted, java_type, slot)) };
    let made = calls.zip(space, operand, judged)?;
    Ok(made)
}

/// The calls with the arguments of these types, which are the operands on top, behind what they have.
fn with_operands<S: Space>(
    program: &Program,
    space: &mut S,
    heap: &Heap<S>,
    descriptor: &[u8],
    types: &[JavaType],
    stack: &Row<Slot, S>,
    start: Cond<Call, S>,
) -> Result<Cond<Call, S>, SpaceFault>
    requires classes { HasClassNumbers program.now }
    requires row { IsRow slot_cmp (S.sets space.old) stack.now }
    requires enough { length types.now ≤ length stack.now.conds }
    requires start { IsCond call_cmp (S.sets space.old) start }
    requires scope { start.scope ≡ stack.now.scope }
    ensures extends { Extends (S.sets space.old) (S.sets space.new) }
    ensures cond { IfOk result (IsCond call_cmp (S.sets space.new)) }
    ensures scope { IfOk result (λ r. r.scope ≡ stack.now.scope) }
    ensures at { IfOk result (λ r. (c : List Bool) → (S.sets space.old).test stack.now.scope c ≡ true → (given : Option (List Slot)) → call_at (S.sets space.old) start c ≡ call_given given → call_at (S.sets space.new) r c ≡ call_given (arguments_with program.now heap.now descriptor.now types.now (drop (length stack.now.conds - length types.now) (slots_at (S.sets space.old) stack.now c)) given)) }
{
    let below = stack.len() - types.len();
    let mut calls = start;
    for i in 0..types.len() {
        let operand = stack.get(below + i);
        calls = with_operand(program, space, heap, descriptor, types[i], &calls, operand)?;
    }
    Ok(calls)
}

/// What stands under so many arguments as a receiver, which has to be of a class.
fn receiver_given<S: Space>(
    program: &Program,
    space: &mut S,
    heap: &Heap<S>,
    class: ClassId,
    stack: &Row<Slot, S>,
    count: usize,
) -> Result<Cond<Call, S>, SpaceFault>
    requires row { IsRow slot_cmp (S.sets space.old) stack.now }
    requires enough { count < length stack.now.conds }
    ensures extends { Extends (S.sets space.old) (S.sets space.new) }
    ensures cond { IfOk result (IsCond call_cmp (S.sets space.new)) }
    ensures scope { IfOk result (λ r. r.scope ≡ stack.now.scope) }
    ensures at { IfOk result (λ r. (c : List Bool) → (S.sets space.old).test stack.now.scope c ≡ true → call_at (S.sets space.new) r c ≡ call_given (with_receiver program.now heap.now false class.0 (drop count (operands_at (S.sets space.old) stack.now c)))) }
{
    let judged = |slot: Slot| -> Call
        ensures { result ≡ call_given (receiver program.entry.now heap.entry.now class.0 slot) }
    { received(program, heap, class, slot) };
    let made = stack.get(stack.len() - count - 1).map(space, judged)?;
    Ok(made)
}

/// The receivers of a method under so many arguments, of which a static method has none.
fn receivers_given<S: Space>(
    alloc: Global,
    program: &Program,
    space: &mut S,
    heap: &Heap<S>,
    method: MethodId,
    stack: &Row<Slot, S>,
    count: usize,
) -> Result<Cond<Call, S>, SpaceFault>
    requires row { IsRow slot_cmp (S.sets space.old) stack.now }
    requires enough { count + receivers (has STATIC (method_at program.now method.0).flags) ≤ length stack.now.conds }
    ensures extends { Extends (S.sets space.old) (S.sets space.new) }
    ensures cond { IfOk result (IsCond call_cmp (S.sets space.new)) }
    ensures scope { IfOk result (λ r. r.scope ≡ stack.now.scope) }
    ensures at { IfOk result (λ r. (c : List Bool) → (S.sets space.old).test stack.now.scope c ≡ true → call_at (S.sets space.new) r c ≡ call_given (with_receiver program.now heap.now (has STATIC (method_at program.now method.0).flags) (method_at program.now method.0).class.0 (drop count (operands_at (S.sets space.old) stack.now c)))) }
{
    if is_static(program, method) {
        let none = Cond::one(alloc, space, Call::Nothing, stack.scope())?;
        return Ok(none);
    }
    let class = class_of_method(program, method);
    let made = receiver_given(program, space, heap, class, stack, count)?;
    Ok(made)
}

fn call_where(call: Call, holds: bool) -> Call
    ensures { result ≡ call_where call holds }
{
    if holds { call } else { Call::Illegal }
}

/// The calls for whose result there is room on the operands that are left.
fn with_room<S: Space>(
    alloc: Global,
    space: &mut S,
    stack: &Row<Slot, S>,
    taken: usize,
    result_type: Option<JavaType>,
    words: u16,
    calls: Cond<Call, S>,
) -> Result<Cond<Call, S>, SpaceFault>
    requires row { IsRow slot_cmp (S.sets space.old) stack.now }
    requires taken { taken ≤ length stack.now.conds }
    requires few { length stack.now.conds < 2 ^ 32 }
    requires calls { IsCond call_cmp (S.sets space.old) calls }
    requires scope { calls.scope ≡ stack.now.scope }
    ensures extends { Extends (S.sets space.old) (S.sets space.new) }
    ensures cond { IfOk result (IsCond call_cmp (S.sets space.new)) }
    ensures scope { IfOk result (λ r. r.scope ≡ stack.now.scope) }
    ensures at { IfOk result (λ r. (c : List Bool) → (S.sets space.old).test stack.now.scope c ≡ true → call_at (S.sets space.new) r c ≡ call_where (call_at (S.sets space.old) calls c) (room_for words result_type (drop taken (operands_at (S.sets space.old) stack.now c)))) }
{
    let Some(java_type) = result_type else {
        return Ok(calls);
    };
    let width = width_of(java_type);
    let rooms = where_room(alloc, space, stack, taken, width, words)?;
    let within = calls.zip(space, &rooms, call_where)?;
    Ok(within)
}

/// How many values a method takes that are no arguments: its receiver.
fn receivers(program: &Program, method: MethodId) -> usize
    ensures { result ≡ receivers (has STATIC (method_at program.now method.0).flags) }
{
    if is_static(program, method) { 0 } else { 1 }
}

/// The calls of a method by its signature, of a group with enough operands.
fn calls_by<S: Space>(
    alloc: Global,
    site: &Site,
    space: &mut S,
    heap: &Heap<S>,
    group: &Group<S>,
    method: MethodId,
    shape: &Descriptor,
) -> Result<Cond<Call, S>, SpaceFault>
    requires given { (operation : Operation) × IsGiven site.now operation (S.sets space.old) heap.now group.now }
    requires shape { shape.now ≡ signature (method_at site.now.program.now method.0).descriptor }
    requires few { length group.now.top.stack.conds < 2 ^ 32 }
    requires enough { taken_by (method_at site.now.program.now method.0) ≤ length group.now.top.stack.conds }
    ensures extends { Extends (S.sets space.old) (S.sets space.new) }
    ensures ok { IfOk result (AreCalls site.now method.0 (S.sets space.old) (S.sets space.new) heap.now group.now) }
{
    let program = site.program;
    let stack = &group.top_frame().stack;
    let types = shape.arguments.as_slice();
    let descriptor = descriptor_of_method(program, method);
    let count = types.len();
    let taken = count + receivers(program, method);
    let start = receivers_given(alloc, program, space, heap, method, stack, count)?;
    let calls = with_operands(program, space, heap, descriptor, types, stack, start)?;
    let words = site.code.max_stack;
    let within = with_room(alloc, space, stack, taken, shape.result, words, calls)?;
    Ok(within)
}

/// What a call of a native method is given at each configuration of a group that stands at it. Where the group has too few operands each
/// call is illegal.
pub fn native_call<S: Space>(
    alloc: Global,
    site: &Site,
    space: &mut S,
    heap: &Heap<S>,
    group: &Group<S>,
    method: MethodId,
) -> Result<NativeCall<S>, SpaceFault>
    requires given { (operation : Operation) × IsGiven site.now operation (S.sets space.old) heap.now group.now }
    requires few { length group.now.top.stack.conds < 2 ^ 32 }
    ensures extends { Extends (S.sets space.old) (S.sets space.new) }
    ensures taken { IfOk result (λ r. r.taken ≡ taken_by (method_at site.now.program.now method.0)) }
    ensures calls { IfOk result (λ r. AreCalls site.now method.0 (S.sets space.old) (S.sets space.new) heap.now group.now r.calls) }
{
    let program = site.program;
    let signature = signature(alloc, descriptor_of_method(program, method))?;
    let taken = signature.arguments.len() + receivers(program, method);
    if group.top_frame().stack.len() < taken {
        let calls = Cond::one(alloc, space, Call::Illegal, group.path())?;
        return Ok(NativeCall { taken, calls });
    }
    let calls = calls_by(alloc, site, space, heap, group, method, &signature)?;
    Ok(NativeCall { taken, calls })
}
