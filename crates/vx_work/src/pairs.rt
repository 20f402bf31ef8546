//! The pairs of sets to which an operation on two sets comes: as it goes down both diagrams at once, each of them once (Bryant 1986).

ghost use Rattle.std.specs.Prelude.{◌≤◌, ◌<◌, IfOk, IfSome, OnOk, All};
ghost use Rattle.vx_space.specs.Sets.{IsKnown};
ghost use Rattle.vx_work.specs.Pairs.{AreBothKnown};

use std::alloc::Global;
use std::cmp::Ordering;
use std::collections::BTreeSet;
use vx_space::{Space, SpaceFault};

/// So many pairs are looked at in less time than it takes to keep those that were seen.
const FEW: u64 = 64;

/// Two sets with the least option off that one of them asks, and with it on; none where the two alone tell the answer, since they are
/// equal or one of them is never or always.
fn parts_of_both<S: Space>(
    space: &S,
    one: S::Id,
    other: S::Id,
) -> Option<((S::Id, S::Id), (S::Id, S::Id))>
    requires one { IsKnown (S.sets space.now) one }
    requires other { IsKnown (S.sets space.now) other }
    ensures low { IfSome result (λ parts. AreBothKnown (S.sets space.now) parts.0) }
    ensures high { IfSome result (λ parts. AreBothKnown (S.sets space.now) parts.1) }
{
    if one == other {
        return None;
    }
    let Some(top) = space.top(one) else {
        return None;
    };
    let Some(next) = space.top(other) else {
        return None;
    };
    match top.0.cmp(&next.0) {
        Ordering::Less => Some(((top.1, other), (top.2, other))),
        Ordering::Greater => Some(((one, next.1), (one, next.2))),
        Ordering::Equal => Some(((top.1, next.1), (top.2, next.2))),
    }
}

/// Opens the parts of a pair, if it has some and was not seen before.
fn go_down<S: Space>(
    space: &S,
    seen: &mut BTreeSet<(S::Id, S::Id)>,
    open: &mut Vec<(S::Id, S::Id)>,
    pair: (S::Id, S::Id),
) -> Result<(), SpaceFault>
    requires pair { AreBothKnown (S.sets space.now) pair }
    requires open { All (AreBothKnown (S.sets space.now)) open.old.items }
    ensures { OnOk result (All (AreBothKnown (S.sets space.now)) open.new.items) }
{
    let Some((low, high)) = parts_of_both(space, pair.0, pair.1) else {
        return Ok(());
    };
    if seen.insert(pair)? {
        open.push(low)?;
        open.push(high)?;
    }
    Ok(())
}

/// What is left of so many pairs behind those that are looked at where it isn't asked which were seen before; none where they are more.
fn left_of_few<S: Space>(space: &S, left: u64, one: S::Id, other: S::Id) -> Option<u64>
    requires one { IsKnown (S.sets space.now) one }
    requires other { IsKnown (S.sets space.now) other }
    ensures { IfSome result (λ rest. rest < left) }
{
    if left == 0 {
        return None;
    }
    let Some((low, high)) = parts_of_both(space, one, other) else {
        return Some(left - 1);
    };
    let Some(rest) = left_of_few(space, left - 1, low.0, low.1) else {
        return None;
    };
    left_of_few(space, rest, high.0, high.1)
}

/// How many pairs are looked at where each is once; none where they are more than a limit.
fn distinct_pairs<S: Space>(
    alloc: Global,
    space: &S,
    limit: u64,
    one: S::Id,
    other: S::Id,
) -> Result<Option<u64>, SpaceFault>
    requires one { IsKnown (S.sets space.now) one }
    requires other { IsKnown (S.sets space.now) other }
    ensures { IfOk result (λ r. IfSome r (λ pairs. pairs ≤ limit)) }
{
    let mut seen = BTreeSet::new(alloc);
    let mut open = Vec::new(alloc);
    open.push((one, other))?;
    for pairs in 0..limit {
        let Some(pair) = open.pop() else {
            return Ok(Some(pairs));
        };
        go_down(space, &mut seen, &mut open, pair)?;
    }
    Ok(None)
}

/// How many pairs are looked at for an operation on two sets; none where they are more than a limit. Where they are few, it isn't asked
/// which of them were seen before.
pub fn pairs_within<S: Space>(
    alloc: Global,
    space: &S,
    limit: u64,
    one: S::Id,
    other: S::Id,
) -> Result<Option<u64>, SpaceFault>
    requires one { IsKnown (S.sets space.now) one }
    requires other { IsKnown (S.sets space.now) other }
    ensures { IfOk result (λ r. IfSome r (λ pairs. pairs ≤ limit)) }
{
    let few = limit.min(FEW);
    if let Some(rest) = left_of_few(space, few, one, other) {
        return Ok(Some(few - rest));
    }
    distinct_pairs(alloc, space, limit, one, other)
}
