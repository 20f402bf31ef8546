//! Values with the configurations that have them: ascending, each once.

ghost use Rattle.std.specs.Prelude.{◌<◌, ◌≤◌, IsTrue, OnOk, length};
ghost use Rattle.vx_space.specs.Sets.{IsKnown, Extends};
ghost use Rattle.vx_cond.specs.Leaves.{AreLeaves, AreLeavesOf, IsApart, IsPlace, value_at, value_under};
ghost use Rattle.vx_findings.specs.Shared.{leaves_of};

use crate::ranked::Ranked;
use std::cmp::Ordering;
use vx_space::{Space, SpaceFault};

/// A value, and the configurations that have it.
#[derive(Drop)]
pub struct Shared<V, S: Space> {
    pub condition: S::Id,
    pub value: V,
}

/// Where a value stands among ascending ones, and whether it is there.
fn place<V: Ranked + Drop, S: Space>(list: &[Shared<V, S>], value: &V) -> (usize, bool)
    ensures place { IsPlace V.order value.now (leaves_of list.now) result.0 result.1 }
    ensures within { result.0 ≤ length list.now }
    ensures found { IsTrue result.1 → result.0 < length list.now }
{
    for (i, shared) in list.iter().enumerate() {
        match shared.value.compare(value) {
            Ordering::Less => {}
            Ordering::Equal => return (i, true),
            Ordering::Greater => return (i, false),
        }
    }
    (list.len(), false)
}

/// Gives a value to configurations that have none so far; where there are none nothing changes. After want of memory the
/// list is given up.
pub fn add<V: Ranked + Drop, S: Space>(
    space: &mut S,
    list: &mut Vec<Shared<V, S>>,
    value: V,
    condition: S::Id,
) -> Result<(), SpaceFault>
    requires leaves { AreLeaves V.order (S.sets space.old) (leaves_of list.old.items) }
    requires known { IsKnown (S.sets space.old) condition }
    requires apart { IsApart (S.sets space.old) condition (leaves_of list.old.items) }
    ensures extends { Extends (S.sets space.old) (S.sets space.new) }
    ensures added { OnOk result (AreLeavesOf V.order (S.sets space.new) (value_under (S.sets space.old) condition value (value_at (S.sets space.old) (leaves_of list.old.items))) (leaves_of list.new.items)) }
{
    if space.is_never(condition) {
        return Ok(());
    }
    let (i, found) = place(list.as_slice(), &value);
    if found {
        let wider = space.or(list[i].condition, condition)?;
        list[i] = Shared {
            condition: wider,
            value,
        };
    } else {
        list.insert(i, Shared { condition, value })?;
    }
    Ok(())
}
