//! getstatic and putstatic for all configurations of a group at once (JVMS 6.5, 5.5).

ghost use Rattle.std.specs.Prelude.{◌≡◌, ◌+◌, ◌<◌, ◌∷◌, ◌^◌, ℕ, Bool, IfOk, List, OnOk, drop, if◌then◌else◌, is_some, length, true};
ghost use Rattle.vx_cond.specs.Cond.{IsInside};
ghost use Rattle.vx_group.specs.Group.{IsGroup, path_of};
ghost use Rattle.vx_heap.specs.Heap.{HeapView, IsHeap, IsHeapFor, are_held, value_of};
ghost use Rattle.vx_java.specs.Ids.{HasClassNumbers};
ghost use Rattle.vx_java.specs.Checks.{sort_of};
ghost use Rattle.vx_java.specs.Fields.{put_value};
ghost use Rattle.vx_java.specs.FirstObjects.{narrowed_value};
ghost use Rattle.vx_java.specs.Machine.{Go, Top, at_position, go};
ghost use Rattle.vx_link.specs.Parts.{class_at, is_static_field};
ghost use Rattle.vx_list.specs.Places.{item_or};
ghost use Rattle.vx_space.specs.Sets.{Extends, IsKnown};
ghost use Rattle.vx_group_states.specs.Answering.{operands_at};
ghost use Rattle.vx_group_states.specs.Sites.{Gives, GivesAt, HasPast, here};
ghost use Rattle.vx_families.specs.Attempts.{AttemptsBy, IsAttemptBy, IsGiven};
ghost use Rattle.vx_families.specs.Bounds.{IsBounded};
ghost use Rattle.vx_ready.specs.Changing.{IsChanged};
ghost use Rattle.vx_references.specs.Fields.{IsFieldReference};
ghost use Rattle.vx_ready.specs.Initialising.{proceeding};
ghost use Rattle.vx_ready.specs.Running.{IsRunning};
ghost use Rattle.vx_fields.specs.Statics.{got, is_of_statics, keeps_option, stored};
ghost use Rattle.vx_families.specs.Sorts.{top_of};

use crate::operands::{narrowed_top, where_fitting, where_room};
use crate::unresolved::unresolved;
use std::alloc::Global;
use vx_desc::{JavaType, is_clinit};
use vx_group::Group;
use vx_group_states::{Site, illegal};
use vx_heap::Heap;
use vx_java::Operation;
use vx_java::parts::{class_of_field, class_of_method, is_option_field, name_of_method};
use vx_link::Program;
use vx_outcome::Outcomes;
use vx_ready::{Readiness, make_ready, stop_others};
use vx_references::{FieldReference, field_reference, named_member};
use vx_space::{Space, SpaceFault};
use vx_value::{ClassId, FieldId, MethodId};

/// Whether a field keeps its value where a method writes it: it is an option's, and the method is the `<clinit>` of its
/// own class.
fn keeps_option(program: &Program, method: MethodId, field: FieldId) -> bool
    ensures { result ≡ keeps_option program.now method.0 field.0 }
{
    is_option_field(program, field)
        && is_clinit(name_of_method(program, method))
        && class_of_method(program, method).0 == class_of_field(program, field).0
}

/// Puts the value of a static field on the operands, and goes past the instruction. No runs come to no outcome.
fn got_part<S: Space>(
    alloc: Global,
    site: &Site,
    space: &mut S,
    heap: &Heap<S>,
    group: Group<S>,
    field: FieldId,
) -> Result<Outcomes<S>, SpaceFault>
    requires group { IsGroup (S.sets space.old) group }
    requires past { HasPast site.now group }
    requires few { length group.top.stack.conds + 1 < 2 ^ 32 }
    requires heap { IsHeap (S.sets space.old) heap.now }
    requires runs { IsInside (S.sets space.old) (path_of group) heap.now.allowed }
    requires field { field.0 < length heap.now.statics }
    ensures extends { Extends (S.sets space.old) (S.sets space.new) }
    ensures gives { IfOk result (λ r. GivesAt site.now.program.now (λ _ _ s. go (here site.now s) (item_or s.statics field.0 Top ∷ s.top.operands)) (S.sets space.old) (S.sets space.new) group r.items.items heap.now) }
{
    let path = group.path();
    if space.is_never(path) {
        return Ok(Outcomes::new(alloc));
    }
    let value = heap.read_static(space, field, path)?;
    let (below, mut frame) = group.take_top();
    frame.stack.push(value)?;
    frame.position += site.size;
    let outcomes = Outcomes::go(alloc, below.put_top(frame))?;
    Ok(outcomes)
}

/// Takes an operand off, and goes past the instruction. No runs come to no outcome.
fn put_part<S: Space>(
    alloc: Global,
    site: &Site,
    space: &S,
    group: Group<S>,
) -> Result<Outcomes<S>, SpaceFault>
    requires group { IsGroup (S.sets space.now) group }
    requires past { HasPast site.now group }
    requires operand { 0 < length group.top.stack.conds }
    ensures { IfOk result (λ r. Gives site.now.program.now (λ s. Go (at_position s (s.top.position + site.now.size) (drop 1 s.top.operands))) (S.sets space.now) (S.sets space.now) group r.items.items) }
{
    if space.is_never(group.path()) {
        return Ok(Outcomes::new(alloc));
    }
    let (below, mut frame) = group.take_top();
    let Some(_operand) = frame.stack.pop() else {
        unreachable!()
    };
    frame.position += site.size;
    let outcomes = Outcomes::go(alloc, below.put_top(frame))?;
    Ok(outcomes)
}

/// Writes the operand on top to a static field inside a path, unless the field keeps its value.
fn store<S: Space>(
    program: &Program,
    space: &mut S,
    heap: &mut Heap<S>,
    group: &Group<S>,
    field: FieldId,
    field_type: JavaType,
    path: S::Id,
) -> Result<(), SpaceFault>
    requires heap { IsHeap (S.sets space.old) heap.old }
    requires group { IsGroup (S.sets space.old) group.now }
    requires operand { 0 < length group.now.top.stack.conds }
    requires field { field.0 < length heap.old.statics }
    requires known { IsKnown (S.sets space.old) path }
    requires inside { IsInside (S.sets space.old) path (path_of group.now) }
    requires runs { IsInside (S.sets space.old) (path_of group.now) heap.old.allowed }
    requires held { (c : List Bool) → (S.sets space.old).test (path_of group.now) c ≡ true → are_held (S.sets space.old) heap.old c (operands_at (S.sets space.old) group.now.top.stack c) ≡ true }
    ensures extends { Extends (S.sets space.old) (S.sets space.new) }
    ensures ok { OnOk result (IsChanged (S.sets space.old) (S.sets space.new) heap.old heap.new (λ c x. if (S.sets space.old).test path c then stored (keeps_option program.now group.now.top.method.0 field.0) field.0 (narrowed_value field_type (value_of (S.sets space.old) heap.old c (top_of (operands_at (S.sets space.old) group.now.top.stack c)))) x else x)) }
{
    if keeps_option(program, group.top_frame().method, field) {
        return Ok(());
    }
    let value = narrowed_top(space, group, field_type, path)?;
    heap.write_static(space, field, &value)?;
    Ok(())
}

/// getstatic of a static field that is there.
fn get_found<S: Space>(
    alloc: Global,
    site: &Site,
    space: &mut S,
    heap: &mut Heap<S>,
    group: Group<S>,
    field: FieldId,
    field_type: JavaType,
) -> Result<Outcomes<S>, SpaceFault>
    requires running { IsRunning site.now (S.sets space.old) heap.old group }
    requires field { is_static_field site.now.program.now field.0 ≡ true }
    requires few { length group.top.stack.conds < site.now.code.now.max_stack }
    ensures extends { Extends (S.sets space.old) (S.sets space.new) }
    ensures ok { IfOk result (λ r. (named : ℕ) → AttemptsBy site.now (λ s. got (record { named = named; field = field.0; type = field_type }) (here site.now s)) (S.sets space.old) (S.sets space.new) heap.old heap.new group r.items.items) }
{
    let class = class_of_field(site.program, field);
    let needs = where_room(alloc, space, &group, field_type, site.code.max_stack)?;
    let readiness = make_ready(alloc, site.program, space, heap, class, needs)?;
    let (going, mut outcomes) = stop_others(alloc, site, space, group, class, needs, &readiness)?;
    let made = got_part(alloc, site, space, heap, going, field)?;
    outcomes.append(made)?;
    Ok(outcomes)
}

/// getstatic of a static field that is there. A value takes a word at least, so where there are as many operands as the
/// method's greatest stack has words, it has no room (JVMS 2.6.2, 4.7.3).
fn get_fitting<S: Space>(
    alloc: Global,
    site: &Site,
    space: &mut S,
    heap: &mut Heap<S>,
    group: Group<S>,
    field: FieldId,
    field_type: JavaType,
) -> Result<Outcomes<S>, SpaceFault>
    requires running { IsRunning site.now (S.sets space.old) heap.old group }
    requires field { is_static_field site.now.program.now field.0 ≡ true }
    requires sort { is_some (sort_of field_type) ≡ true }
    ensures extends { Extends (S.sets space.old) (S.sets space.new) }
    ensures ok { IfOk result (λ r. (named : ℕ) → AttemptsBy site.now (λ s. got (record { named = named; field = field.0; type = field_type }) (here site.now s)) (S.sets space.old) (S.sets space.new) heap.old heap.new group r.items.items) }
{
    if group.top_frame().stack.len() >= usize::from(site.code.max_stack) {
        return illegal(alloc, site.program, &group);
    }
    get_found(alloc, site, space, heap, group, field, field_type)
}

/// Takes an operand off and goes past the instruction in the runs that proceed; the others stop.
fn put_going<S: Space>(
    alloc: Global,
    site: &Site,
    space: &mut S,
    group: Group<S>,
    class: ClassId,
    needs: S::Id,
    readiness: &Readiness<S>,
) -> Result<Outcomes<S>, SpaceFault>
    requires classes { HasClassNumbers site.now.program.now }
    requires group { IsGroup (S.sets space.old) group }
    requires past { HasPast site.now group }
    requires operand { 0 < length group.top.stack.conds }
    requires needs { IsKnown (S.sets space.old) needs }
    requires proceeds { IsKnown (S.sets space.old) readiness.now.proceeds }
    requires fails { IsKnown (S.sets space.old) readiness.now.fails }
    ensures extends { Extends (S.sets space.old) (S.sets space.new) }
    ensures gives { IfOk result (λ r. (heap : HeapView S S.Id) → GivesAt site.now.program.now (proceeding site.now class.0 (S.sets space.old) needs readiness.now (λ s. Go (at_position s (s.top.position + site.now.size) (drop 1 s.top.operands)))) (S.sets space.old) (S.sets space.new) group r.items.items heap) }
{
    let (going, mut outcomes) = stop_others(alloc, site, space, group, class, needs, readiness)?;
    let made = put_part(alloc, site, space, going)?;
    outcomes.append(made)?;
    Ok(outcomes)
}

/// putstatic of a static field that is there, in runs that have an operand.
fn put_found<S: Space>(
    alloc: Global,
    site: &Site,
    space: &mut S,
    heap: &mut Heap<S>,
    group: Group<S>,
    field: FieldId,
    field_type: JavaType,
) -> Result<Outcomes<S>, SpaceFault>
    requires running { IsRunning site.now (S.sets space.old) heap.old group }
    requires field { is_static_field site.now.program.now field.0 ≡ true }
    requires operand { 0 < length group.top.stack.conds }
    ensures extends { Extends (S.sets space.old) (S.sets space.new) }
    ensures ok { IfOk result (λ r. (named : ℕ) → AttemptsBy site.now (λ s. put_value (here site.now s) (record { named = named; field = field.0; type = field_type }) s.top.operands) (S.sets space.old) (S.sets space.new) heap.old heap.new group r.items.items) }
{
    let program = site.program;
    let class = class_of_field(program, field);
    let needs = where_fitting(space, &group, field_type)?;
    let readiness = make_ready(alloc, program, space, heap, class, needs)?;
    store(
        program,
        space,
        heap,
        &group,
        field,
        field_type,
        readiness.proceeds,
    )?;
    put_going(alloc, site, space, group, class, needs, &readiness)
}

/// putstatic of a static field that is there.
fn put_fitting<S: Space>(
    alloc: Global,
    site: &Site,
    space: &mut S,
    heap: &mut Heap<S>,
    group: Group<S>,
    field: FieldId,
    field_type: JavaType,
) -> Result<Outcomes<S>, SpaceFault>
    requires running { IsRunning site.now (S.sets space.old) heap.old group }
    requires field { is_static_field site.now.program.now field.0 ≡ true }
    ensures extends { Extends (S.sets space.old) (S.sets space.new) }
    ensures ok { IfOk result (λ r. (named : ℕ) → AttemptsBy site.now (λ s. put_value (here site.now s) (record { named = named; field = field.0; type = field_type }) s.top.operands) (S.sets space.old) (S.sets space.new) heap.old heap.new group r.items.items) }
{
    if group.top_frame().stack.len() == 0 {
        return illegal(alloc, site.program, &group);
    }
    put_found(alloc, site, space, heap, group, field, field_type)
}

/// The field that an entry of the pool of a class names, for an instruction of static fields or of those of objects.
pub fn field_named<S: Space>(
    program: &Program,
    heap: &Heap<S>,
    class: ClassId,
    index: u16,
    is_static: bool,
) -> FieldReference
    requires bounded { IsBounded program.now }
    requires for_program { IsHeapFor program.now heap.now }
    ensures { IsFieldReference program.now (class_at program.now class.0).pool index is_static result }
{
    let owner = heap.owner(program, class, index);
    match program.class(class) {
        Some(class) => field_reference(program, &class.pool, index, owner, is_static),
        None => FieldReference::NoType,
    }
}

/// getstatic.
fn get_static<S: Space>(
    alloc: Global,
    site: &Site,
    space: &mut S,
    heap: &mut Heap<S>,
    index: u16,
    group: Group<S>,
) -> Result<Outcomes<S>, SpaceFault>
    requires { IsGiven site.now (Operation.GetStatic index) (S.sets space.old) heap.old group }
    ensures extends { Extends (S.sets space.old) (S.sets space.new) }
    ensures ok { IfOk result (λ r. IsAttemptBy site.now (Operation.GetStatic index) (S.sets space.old) (S.sets space.new) heap.old heap.new group r.items.items) }
{
    let class = class_of_method(site.program, group.top_frame().method);
    match field_named(site.program, heap, class, index, true) {
        FieldReference::Found {
            field,
            field_type,
            ..
        } => get_fitting(alloc, site, space, heap, group, field, field_type),
        missing => {
            let named = named_member(site.program, class, index);
            unresolved(alloc, site, group, missing, &named)
        }
    }
}

/// putstatic.
fn put_static<S: Space>(
    alloc: Global,
    site: &Site,
    space: &mut S,
    heap: &mut Heap<S>,
    index: u16,
    group: Group<S>,
) -> Result<Outcomes<S>, SpaceFault>
    requires { IsGiven site.now (Operation.PutStatic index) (S.sets space.old) heap.old group }
    ensures extends { Extends (S.sets space.old) (S.sets space.new) }
    ensures ok { IfOk result (λ r. IsAttemptBy site.now (Operation.PutStatic index) (S.sets space.old) (S.sets space.new) heap.old heap.new group r.items.items) }
{
    let class = class_of_method(site.program, group.top_frame().method);
    match field_named(site.program, heap, class, index, true) {
        FieldReference::Found {
            field,
            field_type,
            ..
        } => put_fitting(alloc, site, space, heap, group, field, field_type),
        missing => {
            let named = named_member(site.program, class, index);
            unresolved(alloc, site, group, missing, &named)
        }
    }
}

/// Does a getstatic or a putstatic for all configurations of a group (JVMS 6.5, 5.5). The class of the field is made ready
/// where it has to be; where that isn't possible in the same attempt, its initialisation begins. After a refusal heap and
/// group are given up.
pub fn attempt<S: Space>(
    alloc: Global,
    site: &Site,
    space: &mut S,
    heap: &mut Heap<S>,
    operation: Operation,
    group: Group<S>,
) -> Result<Outcomes<S>, SpaceFault>
    requires given { IsGiven site.now operation (S.sets space.old) heap.old group }
    requires family { is_of_statics operation ≡ true }
    ensures extends { Extends (S.sets space.old) (S.sets space.new) }
    ensures ok { IfOk result (λ r. IsAttemptBy site.now operation (S.sets space.old) (S.sets space.new) heap.old heap.new group r.items.items) }
{
    match operation {
        Operation::GetStatic(index) => get_static(alloc, site, space, heap, index, group),
        Operation::PutStatic(index) => put_static(alloc, site, space, heap, index, group),
        _ => unreachable!(),
    }
}
