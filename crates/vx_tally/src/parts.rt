//! Sets and edges with one option off, and with it on.

ghost use Rattle.std.specs.Prelude.{◌≡◌, ◌<◌, ◌≤◌, ℕ, true, false, length, if◌then◌else◌};
ghost use Rattle.vx_tally.specs.declared.parts.Holding.TheVariants.{Neither, First, Second};
ghost use Rattle.vx_space.specs.Sets.{IsKnown};
ghost use Rattle.vx_bdd_tools.specs.Steps.{IsFreeBelow};
ghost use Rattle.vx_tally.specs.Tally.{level, AreNodes};
ghost use Rattle.vx_tally.specs.Parts.{IsDivision, IsHalf, IsPart, IsSide, IsHolding};

use crate::node::{Edge, TallyNode};
use vx_space::Space;

/// The least option on which a set depends, or the number of options for never and always.
fn level_of_set<S: Space>(space: &S, id: S::Id) -> u32
    requires { IsKnown (S.sets space.now) id }
    ensures free { IsFreeBelow (S.sets space.now) id result }
    ensures later { (i : ℕ) → i ≤ (S.sets space.now).options → IsFreeBelow (S.sets space.now) id i → i ≤ result }
{
    match space.top(id) {
        Some(top) => top.0,
        None => space.options(),
    }
}

/// The parts of a set, with an option off and on that is not after those on which it depends.
pub(crate) fn halves<S: Space>(space: &S, id: S::Id, option: u32) -> (S::Id, S::Id)
    requires known { IsKnown (S.sets space.now) id }
    requires free { IsFreeBelow (S.sets space.now) id option }
    ensures low { IsHalf (S.sets space.now) id option false result.0 }
    ensures high { IsHalf (S.sets space.now) id option true result.1 }
{
    let Some(top) = space.top(id) else {
        return (id, id);
    };
    if top.0 != option {
        return (id, id);
    }
    (top.1, top.2)
}

/// Which of two sets is to be asked.
pub(crate) enum Holding {
    Neither,
    First,
    Second,
    /// Both, by the least option on which one of them depends.
    Both(u32),
}

/// Which is to be asked where the first is always or never.
fn plain_holding(first_always: bool, second_never: bool) -> Holding
    ensures { result ≡ (if first_always then First else if second_never then Neither else Second) }
{
    if first_always {
        Holding::First
    } else if second_never {
        Holding::Neither
    } else {
        Holding::Second
    }
}

/// Which of two sets is to be asked, the first before the second.
pub(crate) fn which_hold<S: Space>(space: &S, a: S::Id, b: S::Id) -> Holding
    requires first { IsKnown (S.sets space.now) a }
    requires second { IsKnown (S.sets space.now) b }
    ensures { IsHolding (S.sets space.now) a b result }
{
    let Some(one) = space.top(a) else {
        return plain_holding(!space.is_never(a), space.is_never(b));
    };
    match space.top(b) {
        Some(other) => Holding::Both(one.0.min(other.0)),
        None => {
            if space.is_never(b) {
                Holding::First
            } else {
                Holding::Both(one.0)
            }
        }
    }
}

/// The option that a place asks, or the number of options at the end.
pub(crate) fn level_of(options: u32, nodes: &[TallyNode], place: usize) -> u32
    requires { place ≤ length nodes.now }
    ensures { result ≡ level options nodes.now place }
{
    if place == 0 {
        options
    } else {
        nodes[place - 1].option
    }
}

/// What stands for a place with an option off and on that is not after the one that it asks.
fn parts(options: u32, nodes: &[TallyNode], place: usize, option: u32) -> (Edge, Edge)
    requires nodes { AreNodes options nodes.now }
    requires given { place ≤ length nodes.now }
    requires option { option < options }
    requires level { option ≤ level options nodes.now place }
    ensures low { IsPart options nodes.now place option false result.0 }
    ensures high { IsPart options nodes.now place option true result.1 }
{
    let same = Edge { place, more: 0 };
    if place == 0 {
        return (same, same);
    }
    let node = nodes[place - 1];
    if node.option != option {
        return (same, same);
    }
    (node.low, node.high)
}

/// What stands for an edge with an option off and on that is not after the one that it asks.
pub(crate) fn sides(options: u32, nodes: &[TallyNode], edge: Edge, option: u32) -> (Edge, Edge)
    requires nodes { AreNodes options nodes.now }
    requires given { edge.place ≤ length nodes.now }
    requires option { option < options }
    requires level { option ≤ level options nodes.now edge.place }
    ensures low { IsSide options nodes.now edge option false result.0 }
    ensures high { IsSide options nodes.now edge option true result.1 }
{
    let (low, high) = parts(options, nodes, edge.place, option);
    (low.raised(edge.more), high.raised(edge.more))
}

/// A set and a place with an option off, and with it on.
#[derive(Clone, Copy)]
pub(crate) struct Division<I> {
    pub option: u32,
    pub off: I,
    pub on: I,
    pub low: Edge,
    pub high: Edge,
}

/// A set and a place by the least option that one of them asks.
pub(crate) fn divided<S: Space>(
    space: &S,
    nodes: &[TallyNode],
    set: S::Id,
    place: usize,
) -> Division<S::Id>
    requires nodes { AreNodes (S.sets space.now).options nodes.now }
    requires known { IsKnown (S.sets space.now) set }
    requires given { place ≤ length nodes.now }
    requires inner { 0 < place }
    ensures { IsDivision (S.sets space.now) nodes.now set place result }
{
    let option = level_of_set(space, set).min(nodes[place - 1].option);
    let (off, on) = halves(space, set, option);
    let (low, high) = parts(space.options(), nodes, place, option);
    Division {
        option,
        off,
        on,
        low,
        high,
    }
}
