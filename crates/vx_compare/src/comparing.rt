//! Where two reports over the same options differ.

ghost use Rattle.std.specs.Prelude.{◌≡◌, ◌++◌, IfOk, OnOk, length};
ghost use Rattle.std.specs.BTreeMap.{get};
ghost use Rattle.vx_space.specs.Sets.{Extends, IsKnown, IsSet};
ghost use Rattle.vx_count.specs.Memo.{AreNumbers};
ghost use Rattle.vx_cover.specs.Covers.{has_end};
ghost use Rattle.vx_report_reader.specs.Lawful.{IsLawful};
ghost use Rattle.vx_compare.specs.Differ.{differs, has_either};
ghost use Rattle.vx_compare.specs.Text.{compared_of};
ghost use Rattle.vx_compare.specs.Ways.{AreSides, ids_from, sides, ways_against, ways_of};

use crate::ways::{Side, Way, push_way};
use std::alloc::{AllocError, Global};
use std::collections::BTreeMap;
use vx_agree::agreement;
use vx_bdd_tools::sets_of;
use vx_count::count_of;
use vx_cover::{ended, first_ends};
use vx_explain::{Rule, rule_within};
use vx_list::Items;
use vx_report::Report;
use vx_space::{Space, SpaceFault};

/// Where two reports differ.
#[derive(Drop)]
pub struct Compared {
    /// At how many configurations one of them has an end.
    pub of: u128,
    /// At how many of them they differ.
    pub differ: u128,
    /// The rule under which they do, among those, if it is short.
    pub rule: Option<Rule>,
    pub ways: Items<Way>,
}

/// The sides of one report, and the configurations at which it has an end.
#[derive(Drop)]
struct Sided<I> {
    sides: Vec<Side<I>>,
    ended: I,
}

/// The sets of a report's ends, each with the place of its end.
fn first_sides<S: Space>(
    alloc: Global,
    space: &S,
    firsts: &[S::Id],
) -> Result<Vec<Side<S::Id>>, AllocError>
    ensures { IfOk result (λ sides. sides.items ≡ ids_from 0 firsts.now) }
{
    let mut sides = Vec::new(alloc);
    for set in firsts {
        let place = sides.len() as u64;
        sides.push(Side {
            end: Some(place),
            set: *set,
        })?;
    }
    Ok(sides)
}

/// The ends of a report, and at last those configurations that have none.
fn sides_of<S: Space>(
    alloc: Global,
    space: &mut S,
    report: &Report,
) -> Result<Sided<S::Id>, SpaceFault>
    requires lawful { IsLawful report.now }
    requires options { length report.now.options ≡ (S.sets space.old).options }
    ensures extends { Extends (S.sets space.old) (S.sets space.new) }
    ensures sides { IfOk result (λ r. AreSides (S.sets space.new) (sides report.now) r.sides.items) }
    ensures ended { IfOk result (λ r. IsSet (S.sets space.new) r.ended (has_end report.now)) }
{
    let sets = sets_of(alloc, space, report.nodes.as_slice())?;
    let ended = ended(space, report, sets.as_slice())?;
    let firsts = first_ends(alloc, space, report, sets.as_slice())?;
    let mut sides = first_sides(alloc, space, firsts.as_slice())?;
    let always = space.always();
    let set = space.minus(always, ended)?;
    sides.push(Side { end: None, set })?;
    Ok(Sided { sides, ended })
}

/// Puts the ways of one side of the first report.
fn put_ways<S: Space>(
    alloc: Global,
    space: &mut S,
    numbers: &mut BTreeMap<S::Id, u128>,
    ways: &mut Vec<Way>,
    one: &Report,
    other: &Report,
    of: S::Id,
    end: Option<u64>,
    here: S::Id,
    others: &[Side<S::Id>],
) -> Result<(), SpaceFault>
    requires numbers { AreNumbers (S.sets space.old) (get S.Id.cmp numbers.old) }
    requires options { length one.now.options ≡ (S.sets space.old).options }
    requires of { IsSet (S.sets space.old) of (has_either one.now other.now) }
    requires here { IsKnown (S.sets space.old) here }
    requires others { AreSides (S.sets space.old) (sides other.now) others.now }
    ensures extends { Extends (S.sets space.old) (S.sets space.new) }
    ensures numbers { OnOk result (AreNumbers (S.sets space.new) (get S.Id.cmp numbers.new)) }
    ensures ways { OnOk result (ways.new.items ≡ ways.old.items ++ ways_against one.now other.now end ((S.sets space.old).test here)) }
{
    for against in others {
        let set = space.and(here, against.set)?;
        let ends = (end, against.end);
        push_way(alloc, space, numbers, ways, one, other, of, ends, set)?;
    }
    Ok(())
}

/// Puts the ways of all sides of the first report.
fn put_all_ways<S: Space>(
    alloc: Global,
    space: &mut S,
    numbers: &mut BTreeMap<S::Id, u128>,
    ways: &mut Vec<Way>,
    one: &Report,
    other: &Report,
    of: S::Id,
    differ: S::Id,
    own: &[Side<S::Id>],
    others: &[Side<S::Id>],
) -> Result<(), SpaceFault>
    requires numbers { AreNumbers (S.sets space.old) (get S.Id.cmp numbers.old) }
    requires options { length one.now.options ≡ (S.sets space.old).options }
    requires of { IsSet (S.sets space.old) of (has_either one.now other.now) }
    requires differ { IsSet (S.sets space.old) differ (differs one.now other.now) }
    requires own { AreSides (S.sets space.old) (sides one.now) own.now }
    requires others { AreSides (S.sets space.old) (sides other.now) others.now }
    ensures extends { Extends (S.sets space.old) (S.sets space.new) }
    ensures numbers { OnOk result (AreNumbers (S.sets space.new) (get S.Id.cmp numbers.new)) }
    ensures ways { OnOk result (ways.new.items ≡ ways.old.items ++ ways_of one.now other.now) }
{
    for side in own {
        let here = space.and(side.set, differ)?;
        let end = side.end;
        put_ways(
            alloc, space, numbers, ways, one, other, of, end, here, others,
        )?;
    }
    Ok(())
}

/// Where two reports over the same options differ: where one of them has an end, and they don't agree.
pub fn compare<S: Space>(
    alloc: Global,
    space: &mut S,
    one: &Report,
    other: &Report,
) -> Result<Compared, SpaceFault>
    requires one { IsLawful one.now }
    requires other { IsLawful other.now }
    requires names { one.now.options ≡ other.now.options }
    requires options { length one.now.options ≡ (S.sets space.old).options }
    ensures extends { Extends (S.sets space.old) (S.sets space.new) }
    ensures compared { IfOk result (λ compared. compared ≡ compared_of one.now other.now) }
{
    let agree = agreement(alloc, space, one, other)?;
    let sided = sides_of(alloc, space, one)?;
    let against = sides_of(alloc, space, other)?;
    let of = space.or(sided.ended, against.ended)?;
    let differ = space.minus(of, agree)?;
    let own = sided.sides.as_slice();
    let others = against.sides.as_slice();
    compared_by(alloc, space, one, other, of, differ, own, others)
}

/// The comparison of two reports, by the configurations at which they differ, and the sides of both.
fn compared_by<S: Space>(
    alloc: Global,
    space: &mut S,
    one: &Report,
    other: &Report,
    of: S::Id,
    differ: S::Id,
    own: &[Side<S::Id>],
    others: &[Side<S::Id>],
) -> Result<Compared, SpaceFault>
    requires options { length one.now.options ≡ (S.sets space.old).options }
    requires of { IsSet (S.sets space.old) of (has_either one.now other.now) }
    requires differ { IsSet (S.sets space.old) differ (differs one.now other.now) }
    requires own { AreSides (S.sets space.old) (sides one.now) own.now }
    requires others { AreSides (S.sets space.old) (sides other.now) others.now }
    ensures extends { Extends (S.sets space.old) (S.sets space.new) }
    ensures compared { IfOk result (λ compared. compared ≡ compared_of one.now other.now) }
{
    let mut numbers = BTreeMap::new(alloc);
    let rule = rule_within(alloc, space, differ, of)?;
    let number_of = count_of(space, &mut numbers, of)?;
    let number_differ = count_of(space, &mut numbers, differ)?;
    let mut ways = Vec::new(alloc);
    put_all_ways(
        alloc,
        space,
        &mut numbers,
        &mut ways,
        one,
        other,
        of,
        differ,
        own,
        others,
    )?;
    Ok(Compared {
        of: number_of,
        differ: number_differ,
        rule,
        ways: Items::of(ways),
    })
}
