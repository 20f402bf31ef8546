//! The ways in which reports differ: pairs of ends.

ghost use Rattle.std.specs.Prelude.{◌≡◌, ◌++◌, IfOk, OnOk, length, option_to_list};
ghost use Rattle.std.specs.BTreeMap.{get};
ghost use Rattle.vx_space.specs.Sets.{Extends, IsKnown, IsSet};
ghost use Rattle.vx_count.specs.Listed.{first_settings};
ghost use Rattle.vx_count.specs.Memo.{AreNumbers};
ghost use Rattle.vx_compare.specs.Differ.{has_either};
ghost use Rattle.vx_compare.specs.Ways.{way_by, way_of, words_of};

use crate::lines::{Difference, difference_at};
use std::alloc::{AllocError, Global};
use std::collections::BTreeMap;
use vx_count::{count_of, firsts};
use vx_explain::{Rule, rule_within};
use vx_report::{Report, put_end};
use vx_space::{Config, Space, SpaceFault};
use vx_value::Name;

/// The configurations of an end of a report, or those that have none.
#[derive(Clone, Copy)]
pub struct Side<I> {
    /// The place of the end, from 0 on.
    pub end: Option<u64>,
    pub set: I,
}

/// Configurations at which one report has one end, or none, the other another one, or none, and they differ.
#[derive(Drop)]
pub struct Way {
    pub one: Name,
    pub other: Name,
    pub number: u128,
    pub rule: Option<Rule>,
    pub example: Config,
    pub difference: Difference,
}

/// Puts the words of the end at a place, or a dash for none.
fn put_words(out: &mut Vec<u8>, report: &Report, end: Option<u64>) -> Result<(), AllocError>
    ensures { OnOk result (out.new.items ≡ out.old.items ++ words_of report.now end) }
{
    let Some(place) = end else {
        return out.extend_from_slice(b"-");
    };
    let Some(line) = report.ends.get(place as usize) else {
        return Ok(());
    };
    put_end(out, &line.end)
}

/// The words of the end at a place, or a dash for none.
fn words_of(alloc: Global, report: &Report, end: Option<u64>) -> Result<Name, AllocError>
    ensures { IfOk result (λ words. words ≡ words_of report.now end) }
{
    let mut words = Vec::new(alloc);
    put_words(&mut words, report, end)?;
    Ok(Name::from_vec(words))
}

/// The first configuration of a set, if it has one.
fn first_of<S: Space>(alloc: Global, space: &S, set: S::Id) -> Result<Option<Config>, AllocError>
    requires { IsKnown (S.sets space.now) set }
    ensures { IfOk result (λ first. option_to_list first ≡ first_settings 1 (S.sets space.now).options ((S.sets space.now).test set)) }
{
    let mut found = firsts(alloc, space, set, 1)?;
    Ok(found.pop())
}

/// What is told of the configurations of a set, of which one is given.
fn way_of<S: Space>(
    alloc: Global,
    space: &mut S,
    numbers: &mut BTreeMap<S::Id, u128>,
    one: &Report,
    other: &Report,
    of: S::Id,
    ends: (Option<u64>, Option<u64>),
    set: S::Id,
    example: Config,
) -> Result<Way, SpaceFault>
    requires numbers { AreNumbers (S.sets space.old) (get S.Id.cmp numbers.old) }
    requires options { length one.now.options ≡ (S.sets space.old).options }
    requires of { IsSet (S.sets space.old) of (has_either one.now other.now) }
    requires set { IsKnown (S.sets space.old) set }
    ensures extends { Extends (S.sets space.old) (S.sets space.new) }
    ensures numbers { OnOk result (AreNumbers (S.sets space.new) (get S.Id.cmp numbers.new)) }
    ensures way { IfOk result (λ way. way ≡ way_of one.now other.now ends.0 ends.1 ((S.sets space.old).test set) example) }
{
    let number = count_of(space, numbers, set)?;
    let rule = rule_within(alloc, space, set, of)?;
    let difference = difference_at(alloc, one, other, &example)?;
    let here = words_of(alloc, one, ends.0)?;
    let there = words_of(alloc, other, ends.1)?;
    Ok(Way {
        one: here,
        other: there,
        number,
        rule,
        example,
        difference,
    })
}

/// Puts what is told of the configurations of a set, if it has any.
pub fn push_way<S: Space>(
    alloc: Global,
    space: &mut S,
    numbers: &mut BTreeMap<S::Id, u128>,
    ways: &mut Vec<Way>,
    one: &Report,
    other: &Report,
    of: S::Id,
    ends: (Option<u64>, Option<u64>),
    set: S::Id,
) -> Result<(), SpaceFault>
    requires numbers { AreNumbers (S.sets space.old) (get S.Id.cmp numbers.old) }
    requires options { length one.now.options ≡ (S.sets space.old).options }
    requires of { IsSet (S.sets space.old) of (has_either one.now other.now) }
    requires set { IsKnown (S.sets space.old) set }
    ensures extends { Extends (S.sets space.old) (S.sets space.new) }
    ensures numbers { OnOk result (AreNumbers (S.sets space.new) (get S.Id.cmp numbers.new)) }
    ensures ways { OnOk result (ways.new.items ≡ ways.old.items ++ way_by one.now other.now ends.0 ends.1 ((S.sets space.old).test set)) }
{
    let first = first_of(alloc, space, set)?;
    let Some(example) = first else {
        return Ok(());
    };
    let way = way_of(alloc, space, numbers, one, other, of, ends, set, example)?;
    ways.push(way)?;
    Ok(())
}
