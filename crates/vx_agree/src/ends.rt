//! Where two reports have equal ends.

ghost use Rattle.std.specs.Prelude.{◌&&◌, ◌||◌, not, IfOk};
ghost use Rattle.vx_space.specs.Sets.{Extends, IsKnown, IsSet};
ghost use Rattle.vx_bdd_tools.specs.Listing.{AreSetsOf};
ghost use Rattle.vx_agree.specs.Ends.{AreAscending, AreEndings, have_same_end};

use std::cmp::Ordering;
use vx_bdd_tools::set_of;
use vx_report::Report;
use vx_space::{Space, SpaceFault};

/// The configurations with an equal end so far, and those whose first end in the one report and in the other is still to come.
#[derive(Clone, Copy)]
pub struct Endings<I> {
    pub found: I,
    pub one: I,
    pub other: I,
}

/// One end more of the first report, which the other one hasn't.
fn past_one<S: Space>(
    space: &mut S,
    endings: Endings<S::Id>,
    set: S::Id,
) -> Result<Endings<S::Id>, SpaceFault>
    requires found { IsKnown (S.sets space.old) endings.found }
    requires one { IsKnown (S.sets space.old) endings.one }
    requires other { IsKnown (S.sets space.old) endings.other }
    requires set { IsKnown (S.sets space.old) set }
    ensures extends { Extends (S.sets space.old) (S.sets space.new) }
    ensures ok { IfOk result (λ r. AreEndings (S.sets space.new) r
        ((S.sets space.old).test endings.found)
        (λ c. (S.sets space.old).test endings.one c && not ((S.sets space.old).test set c))
        ((S.sets space.old).test endings.other)) }
{
    let one = space.minus(endings.one, set)?;
    Ok(Endings {
        found: endings.found,
        one,
        other: endings.other,
    })
}

/// One end more of the other report, which the first one hasn't.
fn past_other<S: Space>(
    space: &mut S,
    endings: Endings<S::Id>,
    set: S::Id,
) -> Result<Endings<S::Id>, SpaceFault>
    requires found { IsKnown (S.sets space.old) endings.found }
    requires one { IsKnown (S.sets space.old) endings.one }
    requires other { IsKnown (S.sets space.old) endings.other }
    requires set { IsKnown (S.sets space.old) set }
    ensures extends { Extends (S.sets space.old) (S.sets space.new) }
    ensures ok { IfOk result (λ r. AreEndings (S.sets space.new) r
        ((S.sets space.old).test endings.found)
        ((S.sets space.old).test endings.one)
        (λ c. (S.sets space.old).test endings.other c && not ((S.sets space.old).test set c))) }
{
    let other = space.minus(endings.other, set)?;
    Ok(Endings {
        found: endings.found,
        one: endings.one,
        other,
    })
}

/// What is found, with the configurations for which an end of both reports is the first one.
fn with_both<S: Space>(
    space: &mut S,
    endings: Endings<S::Id>,
    set: S::Id,
    other_set: S::Id,
) -> Result<S::Id, SpaceFault>
    requires found { IsKnown (S.sets space.old) endings.found }
    requires one { IsKnown (S.sets space.old) endings.one }
    requires other { IsKnown (S.sets space.old) endings.other }
    requires set { IsKnown (S.sets space.old) set }
    requires other_set { IsKnown (S.sets space.old) other_set }
    ensures extends { Extends (S.sets space.old) (S.sets space.new) }
    ensures ok { IfOk result (λ r. IsSet (S.sets space.new) r (λ c. (S.sets space.old).test endings.found c
        || (((S.sets space.old).test endings.one c && (S.sets space.old).test set c) && ((S.sets space.old).test endings.other c && (S.sets space.old).test other_set c)))) }
{
    let part = space.and(endings.one, set)?;
    let other_part = space.and(endings.other, other_set)?;
    let both = space.and(part, other_part)?;
    space.or(endings.found, both)
}

/// One end more of both reports.
fn past_both<S: Space>(
    space: &mut S,
    endings: Endings<S::Id>,
    set: S::Id,
    other_set: S::Id,
) -> Result<Endings<S::Id>, SpaceFault>
    requires found { IsKnown (S.sets space.old) endings.found }
    requires one { IsKnown (S.sets space.old) endings.one }
    requires other { IsKnown (S.sets space.old) endings.other }
    requires set { IsKnown (S.sets space.old) set }
    requires other_set { IsKnown (S.sets space.old) other_set }
    ensures extends { Extends (S.sets space.old) (S.sets space.new) }
    ensures ok { IfOk result (λ r. AreEndings (S.sets space.new) r
        (λ c. (S.sets space.old).test endings.found c
        || (((S.sets space.old).test endings.one c && (S.sets space.old).test set c) && ((S.sets space.old).test endings.other c && (S.sets space.old).test other_set c)))
        (λ c. (S.sets space.old).test endings.one c && not ((S.sets space.old).test set c))
        (λ c. (S.sets space.old).test endings.other c && not ((S.sets space.old).test other_set c))) }
{
    let found = with_both(space, endings, set, other_set)?;
    let one = space.minus(endings.one, set)?;
    let other = space.minus(endings.other, other_set)?;
    Ok(Endings { found, one, other })
}

/// The configurations at which both reports have an end, and one: the first that holds the configuration counts. The ends of
/// both are gone through once, in their order.
pub fn same_end<S: Space>(
    space: &mut S,
    one: &Report,
    one_sets: &[S::Id],
    other: &Report,
    sets: &[S::Id],
) -> Result<S::Id, SpaceFault>
    requires one { AreSetsOf (S.sets space.old) one.now.nodes one_sets.now }
    requires sets { AreSetsOf (S.sets space.old) other.now.nodes sets.now }
    requires ends { AreAscending one.now.ends }
    requires other_ends { AreAscending other.now.ends }
    ensures extends { Extends (S.sets space.old) (S.sets space.new) }
    ensures same { IfOk result (λ id. IsSet (S.sets space.new) id (have_same_end one.now other.now)) }
{
    let ends = one.ends.as_slice();
    let other_ends = other.ends.as_slice();
    let mut endings = Endings {
        found: space.never(),
        one: space.always(),
        other: space.always(),
    };
    let mut place = 0;
    let mut other_place = 0;
    while place < ends.len() && other_place < other_ends.len() {
        let set = set_of(space, one_sets, ends[place].node);
        let other_set = set_of(space, sets, other_ends[other_place].node);
        match ends[place].end.compare(&other_ends[other_place].end) {
            Ordering::Less => {
                endings = past_one(space, endings, set)?;
                place += 1;
            }
            Ordering::Greater => {
                endings = past_other(space, endings, other_set)?;
                other_place += 1;
            }
            Ordering::Equal => {
                endings = past_both(space, endings, set, other_set)?;
                place += 1;
                other_place += 1;
            }
        }
    }
    Ok(endings.found)
}
