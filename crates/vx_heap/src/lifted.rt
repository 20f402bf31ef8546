//! What every run begins with, lifted to the configurations that run.

ghost use Rattle.std.specs.Prelude.{◌≡◌, ◌<◌, true, IfOk, map};
ghost use Rattle.vx_space.specs.Sets.{IsKnown, Extends};
ghost use Rattle.vx_value.specs.Slot.{init_state_cmp, slot_cmp};
ghost use Rattle.vx_heap.specs.Heap.{has_option};
ghost use Rattle.vx_heap.specs.declared.cell_list.Cell.TheVariants.{Plain};
ghost use Rattle.vx_heap.specs.Lifted.{option_of, option_slot, options_known, AreLifted, AreSame, AreStatics, IsLifted, IsSame, IsStatic, IsThroughout, slots_of};

use crate::cell_list::CellList;
use crate::object::HeapObject;
use std::alloc::{AllocError, Global};
use vx_cond::Cond;
use vx_initial_heap::{First, FirstObject, FirstStatic};
use vx_space::{Space, SpaceFault};
use vx_value::{Exact, InitState, Slot};

/// One value in a scope.
fn same<T: Exact, S: Space>(
    alloc: Global,
    space: &S,
    value: T,
    scope: S::Id,
) -> Result<Cond<T, S>, AllocError>
    requires { IsKnown (S.sets space.now) scope }
    ensures { IfOk result (IsSame T.cmp (S.sets space.now) scope value) }
{
    let cond = Cond::one(alloc, space, value, scope)?;
    Ok(cond)
}

/// Values, each everywhere in a scope.
fn same_values<T: Exact, S: Space>(
    alloc: Global,
    space: &S,
    values: &[T],
    scope: S::Id,
) -> Result<Vec<Cond<T, S>>, AllocError>
    requires { IsKnown (S.sets space.now) scope }
    ensures { IfOk result (λ conds. AreSame T.cmp (S.sets space.now) scope values.now conds.items) }
{
    let mut conds = Vec::new(alloc);
    for value in values {
        conds.push(same(alloc, space, *value, scope)?)?;
    }
    Ok(conds)
}

fn cells<S: Space>(alloc: Global, cell: Option<Slot>) -> Result<CellList<S>, AllocError>
    ensures { IfOk result (λ cells. cells ≡ map Plain (slots_of cell)) }
{
    match cell {
        Some(slot) => CellList::of(alloc, &[slot]),
        None => CellList::of(alloc, &[]),
    }
}

/// A first object that is there in a scope.
fn lifted<S: Space>(
    alloc: Global,
    object: FirstObject,
    scope: S::Id,
) -> Result<HeapObject<S>, AllocError>
    ensures { IfOk result (IsLifted scope object) }
{
    let cells = cells(alloc, object.cell)?;
    Ok(HeapObject {
        class: object.class,
        length: 0,
        presence: scope,
        cells,
    })
}

/// The first objects, which are there in a scope.
fn lifted_objects<S: Space>(
    alloc: Global,
    objects: &[FirstObject],
    scope: S::Id,
) -> Result<Vec<HeapObject<S>>, AllocError>
    ensures { IfOk result (λ made. AreLifted scope objects.now made.items) }
{
    let mut made = Vec::new(alloc);
    for object in objects {
        made.push(lifted(alloc, *object, scope)?)?;
    }
    Ok(made)
}

/// The value of an option in a scope: 1 where it is on, and 0 where it is off.
fn option_value<S: Space>(
    alloc: Global,
    space: &mut S,
    option: u32,
    scope: S::Id,
) -> Result<Cond<Slot, S>, SpaceFault>
    requires known { IsKnown (S.sets space.old) scope }
    requires option { option < (S.sets space.old).options }
    ensures extends { Extends (S.sets space.old) (S.sets space.new) }
    ensures ok { IfOk result (IsThroughout slot_cmp (S.sets space.new) scope (option_slot option)) }
{
    let on = space.option(option)?;
    let inside = space.and(scope, on)?;
    let zero = Cond::one(alloc, space, Slot::Int(0), scope)?;
    let one = Cond::one(alloc, space, Slot::Int(1), inside)?;
    let value = zero.overwrite(space, &one)?;
    Ok(value)
}

fn static_value<S: Space>(
    alloc: Global,
    space: &mut S,
    first: FirstStatic,
    scope: S::Id,
) -> Result<Cond<Slot, S>, SpaceFault>
    requires known { IsKnown (S.sets space.old) scope }
    requires option { has_option (S.sets space.old).options (option_of first) ≡ true }
    ensures extends { Extends (S.sets space.old) (S.sets space.new) }
    ensures ok { IfOk result (IsStatic (S.sets space.new) scope first) }
{
    match first {
        FirstStatic::Same(slot) => {
            let value = same(alloc, space, slot, scope)?;
            Ok(value)
        }
        FirstStatic::OfOption(option) => option_value(alloc, space, option, scope),
    }
}

/// What the static fields begin with, in a scope.
fn static_values<S: Space>(
    alloc: Global,
    space: &mut S,
    statics: &[FirstStatic],
    scope: S::Id,
) -> Result<Vec<Cond<Slot, S>>, SpaceFault>
    requires known { IsKnown (S.sets space.old) scope }
    requires options { options_known (S.sets space.old).options statics.now ≡ true }
    ensures extends { Extends (S.sets space.old) (S.sets space.new) }
    ensures ok { IfOk result (λ conds. AreStatics (S.sets space.new) scope statics.now conds.items) }
{
    let mut conds = Vec::new(alloc);
    for first in statics {
        conds.push(static_value(alloc, space, *first, scope)?)?;
    }
    Ok(conds)
}

/// What every run begins with and depends on the configuration: the objects, and by their numbers the values of the static fields and
/// the initialisation states of the classes.
#[derive(Drop)]
pub struct LiftedFirst<S: Space> {
    pub objects: Vec<HeapObject<S>>,
    pub statics: Vec<Cond<Slot, S>>,
    pub inits: Vec<Cond<InitState, S>>,
}

/// What every run begins with, in a scope.
pub fn lifted_first<S: Space>(
    alloc: Global,
    space: &mut S,
    first: &First,
    scope: S::Id,
) -> Result<LiftedFirst<S>, SpaceFault>
    requires known { IsKnown (S.sets space.old) scope }
    requires options { options_known (S.sets space.old).options first.now.statics.items ≡ true }
    ensures extends { Extends (S.sets space.old) (S.sets space.new) }
    ensures objects { IfOk result (λ r. AreLifted scope first.now.objects.items r.objects.items) }
    ensures statics { IfOk result (λ r. AreStatics (S.sets space.new) scope first.now.statics.items r.statics.items) }
    ensures inits { IfOk result (λ r. AreSame init_state_cmp (S.sets space.new) scope first.now.inits.items r.inits.items) }
{
    let statics = static_values(alloc, space, &first.statics, scope)?;
    let objects = lifted_objects(alloc, &first.objects, scope)?;
    let inits = same_values(alloc, space, &first.inits, scope)?;
    Ok(LiftedFirst {
        objects,
        statics,
        inits,
    })
}
