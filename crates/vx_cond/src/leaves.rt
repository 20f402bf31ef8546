//! Leaves: ascending values with the conditions under which they hold. Each call is a loop of `add`.

ghost use Rattle.std.specs.Prelude.{◌≡◌, ◌<◌, ◌≤◌, ◌+◌, ◌-◌, if◌then◌else◌, IsTrue, length, OnErr, OnOk, IfOk, ◌++◌, map};
ghost use Rattle.vx_space.specs.Sets.{IsKnown, Extends};
ghost use Rattle.vx_cond.specs.Merges.{HasNext};
ghost use Rattle.vx_cond.specs.Leaves.{IsPlace, AreAscending, AreLeaves, IsApart, AreLeavesOf, value_at, value_under, value_within, first_of, AreLeavesApart, AreLifted, AreLifted2, IsLiftedUnder};

use crate::cond::Leaf;
use std::alloc::{AllocError, Global};
use std::cmp::Ordering;
use vx_list::{or_cut_back, put_one};
use vx_space::{Config, Space, SpaceFault};
use vx_value::Exact;

/// The part of a range of places that is left when what stands at one of them is less than what is looked for, or greater.
fn narrowed(low: usize, high: usize, at: usize, is_less: bool) -> (usize, usize)
    requires least { low ≤ at }
    requires most { at < high }
    ensures part { result ≡ (if is_less then (at + 1, high) else (low, at)) }
    ensures ordered { result.0 ≤ result.1 }
    ensures within { result.1 ≤ high }
    ensures smaller { result.1 - result.0 < high - low }
{
    if is_less { (at + 1, high) } else { (low, at) }
}

/// Where a value stands among ascending leaves, and whether it is there. It is looked for by halves, and at the last leaf first, since
/// values mostly come in ascending order.
fn place<T: Exact, S: Space>(leaves: &[Leaf<T, S>], value: T) -> (usize, bool)
    requires { AreAscending T.cmp leaves.now }
    ensures place { IsPlace T.cmp value leaves.now result.0 result.1 }
    ensures within { result.0 ≤ length leaves.now }
    ensures found { IsTrue result.1 → result.0 < length leaves.now }
{
    let mut low = 0;
    let mut high = leaves.len();
    let mut at = high.saturating_sub(1);
    while low < high {
        let order = leaves[at].value.cmp(&value);
        if order.is_eq() {
            return (at, true);
        }
        let part = narrowed(low, high, at, order.is_lt());
        low = part.0;
        high = part.1;
        at = low + (high - low) / 2;
    }
    (low, false)
}

/// Adds a value under a condition that is apart from the leaves: its leaf is widened, or a new one is put at its place.
pub(crate) fn add<T: Exact, S: Space>(
    space: &mut S,
    leaves: &mut Vec<Leaf<T, S>>,
    value: T,
    condition: S::Id,
) -> Result<(), SpaceFault>
    requires leaves { AreLeaves T.cmp (S.sets space.old) leaves.old.items }
    requires known { IsKnown (S.sets space.old) condition }
    requires apart { IsApart (S.sets space.old) condition leaves.old.items }
    ensures extends { Extends (S.sets space.old) (S.sets space.new) }
    ensures added { OnOk result (AreLeavesOf T.cmp (S.sets space.new) (value_under (S.sets space.old) condition value (value_at (S.sets space.old) leaves.old.items)) leaves.new.items) }
{
    if space.is_never(condition) {
        return Ok(());
    }
    let (i, found) = place(leaves.as_slice(), value);
    if found {
        let wider = space.or(leaves[i].condition, condition)?;
        leaves[i] = Leaf {
            value,
            condition: wider,
        };
    } else {
        leaves.insert(i, Leaf { value, condition })?;
    }
    Ok(())
}

/// The leaves inside a condition.
#[tactic(auto, using(crate::proofs::LeafLoops::leaf_loops))]
pub(crate) fn restrict_leaves<T: Exact, S: Space>(
    alloc: Global,
    space: &mut S,
    leaves: &[Leaf<T, S>],
    within: S::Id,
) -> Result<Vec<Leaf<T, S>>, SpaceFault>
    requires leaves { AreLeaves T.cmp (S.sets space.old) leaves.now }
    requires known { IsKnown (S.sets space.old) within }
    ensures extends { Extends (S.sets space.old) (S.sets space.new) }
    ensures ok { IfOk result (λ r. AreLeavesOf T.cmp (S.sets space.new) (value_within (S.sets space.old) within (value_at (S.sets space.old) leaves.now)) r.items) }
{
    let mut made = Vec::new(alloc);
    for leaf in leaves {
        let condition = space.and(leaf.condition, within)?;
        add(space, &mut made, leaf.value, condition)?;
    }
    Ok(made)
}

/// The same leaves.
#[tactic(auto, using(crate::proofs::LeafLoops::leaf_loops))]
pub(crate) fn copy_leaves<T: Exact, S: Space>(
    alloc: Global,
    leaves: &[Leaf<T, S>],
) -> Result<Vec<Leaf<T, S>>, AllocError>
    ensures { IfOk result (λ r. r.items ≡ leaves.now) }
{
    let mut made = Vec::with_capacity(alloc, leaves.len())?;
    for leaf in leaves {
        made.push(Leaf {
            value: leaf.value,
            condition: leaf.condition,
        })?;
    }
    Ok(made)
}

/// The leaves of a function's values.
#[tactic(auto, using(crate::proofs::LeafLoops::leaf_loops))]
pub(crate) fn map_leaves<T: Exact, U: Exact, S: Space, F: Fn(T) -> U>(
    alloc: Global,
    space: &mut S,
    leaves: &[Leaf<T, S>],
    f: F,
) -> Result<Vec<Leaf<U, S>>, SpaceFault>
    requires leaves { AreLeaves T.cmp (S.sets space.old) leaves.now }
    requires callable { F.IsAlwaysCallable f }
    ensures extends { Extends (S.sets space.old) (S.sets space.new) }
    ensures ok { IfOk result (λ r. AreLifted U.cmp (S.sets space.new) (F.post f) (value_at (S.sets space.old) leaves.now) r.items) }
{
    let mut made = Vec::new(alloc);
    for leaf in leaves {
        let value = f(leaf.value);
        add(space, &mut made, value, leaf.condition)?;
    }
    Ok(made)
}

/// Adds the values of a function at one value and others, inside a condition.
#[tactic(auto, using(crate::proofs::LeafLoops::leaf_loops))]
pub(crate) fn zip_leaf<T: Exact, U: Exact, V: Exact, S: Space, F: Fn(T, U) -> V>(
    space: &mut S,
    made: &mut Vec<Leaf<V, S>>,
    value: T,
    condition: S::Id,
    others: &[Leaf<U, S>],
    f: &F,
) -> Result<(), SpaceFault>
    requires made { AreLeaves V.cmp (S.sets space.old) made.old.items }
    requires others { AreLeaves U.cmp (S.sets space.old) others.now }
    requires known { IsKnown (S.sets space.old) condition }
    requires apart { IsApart (S.sets space.old) condition made.old.items }
    requires callable { F.IsAlwaysCallable f.now }
    ensures extends { Extends (S.sets space.old) (S.sets space.new) }
    ensures ok { OnOk result (IsLiftedUnder V.cmp (S.sets space.old) (S.sets space.new) (F.post f.now value) condition (value_at (S.sets space.old) others.now) made.old.items made.new.items) }
{
    for other in others {
        let both = space.and(condition, other.condition)?;
        let result = f(value, other.value);
        add(space, made, result, both)?;
    }
    Ok(())
}

/// The leaves of a function's values at two values.
#[tactic(auto, using(crate::proofs::LeafLoops::leaf_loops))]
pub(crate) fn zip_leaves<T: Exact, U: Exact, V: Exact, S: Space, F: Fn(T, U) -> V>(
    alloc: Global,
    space: &mut S,
    leaves: &[Leaf<T, S>],
    others: &[Leaf<U, S>],
    f: &F,
) -> Result<Vec<Leaf<V, S>>, SpaceFault>
    requires leaves { AreLeaves T.cmp (S.sets space.old) leaves.now }
    requires others { AreLeaves U.cmp (S.sets space.old) others.now }
    requires callable { F.IsAlwaysCallable f.now }
    ensures extends { Extends (S.sets space.old) (S.sets space.new) }
    ensures ok { IfOk result (λ r. AreLifted2 V.cmp (S.sets space.new) (F.post f.now) (value_at (S.sets space.old) leaves.now) (value_at (S.sets space.old) others.now) r.items) }
{
    let mut made = Vec::new(alloc);
    for leaf in leaves {
        zip_leaf(space, &mut made, leaf.value, leaf.condition, others, f)?;
    }
    Ok(made)
}

/// Which of two lists has the next leaf.
pub(crate) enum Side {
    First,
    Second,
    Neither,
}

/// The one of two ascending lists, from two places on, whose next leaf has the lesser value.
fn next_side<T: Exact, S: Space>(
    leaves: &[Leaf<T, S>],
    i: usize,
    others: &[Leaf<T, S>],
    j: usize,
) -> Side
    ensures { HasNext i (length leaves.now) j (length others.now) result }
{
    if i >= leaves.len() {
        if j >= others.len() {
            return Side::Neither;
        }
        return Side::Second;
    }
    if j >= others.len() {
        return Side::First;
    }
    if others[j].value < leaves[i].value {
        return Side::Second;
    }
    Side::First
}

/// The leaves of both, which are apart, by merging the two.
#[tactic(auto, using(crate::proofs::LeafLoops::leaf_merges))]
pub(crate) fn join_leaves<T: Exact, S: Space>(
    alloc: Global,
    space: &mut S,
    leaves: &[Leaf<T, S>],
    others: &[Leaf<T, S>],
) -> Result<Vec<Leaf<T, S>>, SpaceFault>
    requires leaves { AreLeaves T.cmp (S.sets space.old) leaves.now }
    requires others { AreLeaves T.cmp (S.sets space.old) others.now }
    requires apart { AreLeavesApart (S.sets space.old) leaves.now others.now }
    ensures extends { Extends (S.sets space.old) (S.sets space.new) }
    ensures ok { IfOk result (λ r. AreLeavesOf T.cmp (S.sets space.new) (first_of (value_at (S.sets space.old) leaves.now) (value_at (S.sets space.old) others.now)) r.items) }
{
    let mut made = Vec::new(alloc);
    let mut i = 0;
    let mut j = 0;
    'merging: loop {
        match next_side(leaves, i, others, j) {
            Side::First => {
                add(space, &mut made, leaves[i].value, leaves[i].condition)?;
                i += 1;
            }
            Side::Second => {
                add(space, &mut made, others[j].value, others[j].condition)?;
                j += 1;
            }
            Side::Neither => return Ok(made),
        }
    }
}

/// The value of the leaf that holds a configuration.
#[tactic(auto, using(crate::proofs::LeafLoops::leaf_scans))]
pub(crate) fn value_of_leaves<T: Exact, S: Space>(
    space: &S,
    leaves: &[Leaf<T, S>],
    c: &Config,
) -> Option<T>
    requires { AreLeaves T.cmp (S.sets space.now) leaves.now }
    ensures { result ≡ value_at (S.sets space.now) leaves.now c.now }
{
    for leaf in leaves {
        if space.holds(leaf.condition, c) {
            return Some(leaf.value);
        }
    }
    None
}

/// Appends the conditions. Want of memory leaves the list as it was.
#[tactic(auto, using(std::proofs::lemmas::List::append_assoc, std::proofs::lemmas::List::take_at))]
pub(crate) fn conditions_out<T: Exact, S: Space>(
    leaves: &[Leaf<T, S>],
    ids: &mut Vec<S::Id>,
) -> Result<(), AllocError>
    ensures ok { OnOk result (ids.new.items ≡ ids.old.items ++ map (λ leaf. leaf.condition) leaves.now) }
    ensures err { OnErr result (ids.new.items ≡ ids.old.items) }
{
    let held = ids.len();
    for leaf in leaves {
        or_cut_back(put_one(ids, leaf.condition), ids, held)?;
    }
    Ok(())
}
