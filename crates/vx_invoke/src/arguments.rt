//! The arguments of a call, which stand on the operands with the last one on top (JVMS 2.6.2, 6.5).

ghost use Rattle.std.specs.Prelude.{◌≡◌, ◌&&◌, ◌≤◌, ◌-◌, IfOk, OnOk, length, take};
ghost use Rattle.vx_cond.specs.Cond.{IsCond};
ghost use Rattle.vx_cond.specs.Slots.{slot_at};
ghost use Rattle.vx_families.specs.Sorts.{slot_fits};
ghost use Rattle.vx_frame.specs.Frame.{scope_of};
ghost use Rattle.vx_group.specs.Group.{IsGroup, path_of};
ghost use Rattle.vx_java.specs.Checks.{sort_of};
ghost use Rattle.vx_space.specs.Sets.{Extends, IsSet};
ghost use Rattle.vx_value.specs.Slot.{slot_cmp};
ghost use Rattle.vx_invoke.specs.Arguments.{arguments_fit};
ghost use Rattle.vx_invoke.specs.Called.{top_conds};

use std::alloc::{AllocError, Global};
use vx_cond::{Cond, Row};
use vx_desc::JavaType;
use vx_families::fits;
use vx_group::Group;
use vx_ready::where_yes;
use vx_space::{Space, SpaceFault};
use vx_value::Slot;

/// The configurations in which an operand is of the sort of a type.
fn where_fitting<S: Space>(
    space: &mut S,
    operand: &Cond<Slot, S>,
    java_type: JavaType,
) -> Result<S::Id, SpaceFault>
    requires { IsCond slot_cmp (S.sets space.old) operand.now }
    ensures extends { Extends (S.sets space.old) (S.sets space.new) }
    ensures set { IfOk result (λ r. IsSet (S.sets space.new) r (λ c. (S.sets space.old).test operand.now.scope c && slot_fits (sort_of java_type) (slot_at (S.sets space.old) operand.now c))) }
{
    let is_fitting = |slot: Slot| -> bool
        ensures { result ≡ slot_fits (sort_of java_type) slot }
    { fits(java_type, slot) };
    let answers = operand.map(space, is_fitting)?;
    Ok(where_yes(space, &answers))
}

/// The configurations of a group in which its operands on top, of which there are enough, are of the sorts of these types.
pub(crate) fn where_matching<S: Space>(
    space: &mut S,
    group: &Group<S>,
    types: &[JavaType],
) -> Result<S::Id, SpaceFault>
    requires group { IsGroup (S.sets space.old) group.now }
    requires enough { length types.now ≤ length group.now.top.stack.conds }
    ensures extends { Extends (S.sets space.old) (S.sets space.new) }
    ensures set { IfOk result (λ r. IsSet (S.sets space.new) r (λ c. (S.sets space.old).test (path_of group.now) c && arguments_fit (S.sets space.old) group.now types.now c)) }
{
    let stack = &group.top_frame().stack;
    let below = stack.len() - types.len();
    let mut matching = group.path();
    for i in 0..types.len() {
        let fitting = where_fitting(space, stack.get(below + i), types[i])?;
        matching = space.and(matching, fitting)?;
    }
    Ok(matching)
}

/// Takes so many values off, the deepest first.
fn pop_values<S: Space>(
    alloc: Global,
    stack: &mut Row<Slot, S>,
    count: usize,
) -> Result<Vec<Cond<Slot, S>>, AllocError>
    requires { count ≤ length stack.old.conds }
    ensures left { OnOk result (stack.new ≡ record stack.old { conds = take (length stack.old.conds - count) stack.old.conds }) }
    ensures values { IfOk result (λ r. r.items ≡ top_conds count stack.old.conds) }
{
    let mut values = Vec::new(alloc);
    for _value in 0..count {
        let Some(value) = stack.pop() else {
            unreachable!()
        };
        values.push(value)?;
    }
    values.reverse();
    Ok(values)
}

/// Takes so many operands off a group, the deepest first.
pub(crate) fn taken<S: Space>(
    alloc: Global,
    group: Group<S>,
    count: usize,
) -> Result<(Group<S>, Vec<Cond<Slot, S>>), AllocError>
    requires enough { count ≤ length group.top.stack.conds }
    requires scope { scope_of group.top ≡ path_of group }
    ensures left { IfOk result (λ r. r.0 ≡ record group { top = record group.top { stack = record group.top.stack { conds = take (length group.top.stack.conds - count) group.top.stack.conds } } }) }
    ensures values { IfOk result (λ r. r.1.items ≡ top_conds count group.top.stack.conds) }
{
    let (below, mut frame) = group.take_top();
    let values = pop_values(alloc, &mut frame.stack, count)?;
    Ok((below.put_top(frame), values))
}
