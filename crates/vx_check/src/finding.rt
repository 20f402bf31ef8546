//! Finding the configurations that fail, one way after the other.

ghost use Rattle.std.specs.Prelude.{◌≡◌, ◌++◌, IfOk, OnOk, option_copied, option_to_list};
ghost use Rattle.std.specs.BTreeMap.{get};
ghost use Rattle.vx_space.specs.Sets.{Extends, IsKnown};
ghost use Rattle.vx_count.specs.Listed.{first_settings};
ghost use Rattle.vx_count.specs.Memo.{AreNumbers};
ghost use Rattle.vx_check.specs.Finding.{FindsAt, FindsIn, IsSound};
ghost use Rattle.vx_check.specs.Lines.{AreKnownEnds, is_good_here, told_here};
ghost use Rattle.vx_check.specs.Ways.{number_of};

use crate::ended::Ended;
use crate::ends::begin;
use crate::expected::Expectation;
use crate::told::Told;
use std::alloc::{AllocError, Global};
use std::collections::BTreeMap;
use vx_count::{count_of, firsts};
use vx_explain::rule_within;
use vx_space::{Config, Space, SpaceFault};
use vx_value::Name;

/// What was found so far.
#[derive(Drop)]
pub struct Finding<I: Ord> {
    /// How many settings each set has that was counted.
    pub numbers: BTreeMap<I, u128>,
    pub told: Vec<Told>,
    /// The configurations of all ways that were told.
    pub failing: I,
}

/// The first setting of a set, if there is one.
fn first<S: Space>(alloc: Global, space: &S, set: S::Id) -> Result<Option<Config>, AllocError>
    requires { IsKnown (S.sets space.now) set }
    ensures { IfOk result (λ c. option_to_list c ≡ first_settings 1 (S.sets space.now).options ((S.sets space.now).test set)) }
{
    let mut found = firsts(alloc, space, set, 1)?;
    let first = found.pop();
    Ok(first)
}

/// Tells of the configurations of a set, if there is one, that they have an end and miss a line.
fn push_told<S: Space>(
    alloc: Global,
    space: &mut S,
    finding: &mut Finding<S::Id>,
    scope: S::Id,
    ended: &Ended<S::Id>,
    line: Option<u64>,
    set: S::Id,
) -> Result<(), SpaceFault>
    requires set { IsKnown (S.sets space.old) set }
    requires scope { IsKnown (S.sets space.old) scope }
    requires numbers { AreNumbers (S.sets space.old) (get S.Id.cmp finding.old.numbers) }
    ensures extends { Extends (S.sets space.old) (S.sets space.new) }
    ensures numbers { OnOk result (AreNumbers (S.sets space.new) (get S.Id.cmp finding.new.numbers)) }
    ensures failing { OnOk result (finding.new.failing ≡ finding.old.failing) }
    ensures told { OnOk result (finding.new.told.items ≡ finding.old.told.items ++ told_here (S.sets space.old) scope ended.now line set) }
{
    let found = first(alloc, space, set)?;
    let Some(example) = found else {
        return Ok(());
    };
    let number = count_of(space, &mut finding.numbers, set)?;
    let rule = rule_within(alloc, space, set, scope)?;
    let end = Name::of(alloc, ended.words.bytes())?;
    finding.told.push(Told {
        rank: ended.rank,
        place: ended.place,
        end,
        line,
        number,
        example,
        rule,
    })?;
    Ok(())
}

/// Whether an end is as a line says, or one to which the program came where there is no line.
fn is_good<I>(ended: &Ended<I>, line: Option<&Expectation>) -> bool
    ensures { result ≡ is_good_here ended.now (option_copied line.entry) }
{
    match line {
        Some(line) => begin(line.end.as_slice(), ended.words.bytes()),
        None => ended.passes,
    }
}

/// The number of a line.
fn number_of(line: Option<&Expectation>) -> Option<u64>
    ensures { result ≡ number_of (option_copied line.entry) }
{
    match line {
        Some(line) => Some(line.line),
        None => None,
    }
}

/// Finds the configurations of a set that have an end, unless it is good there.
fn find_ended<S: Space>(
    alloc: Global,
    space: &mut S,
    finding: &mut Finding<S::Id>,
    scope: S::Id,
    ended: &Ended<S::Id>,
    line: Option<&Expectation>,
    set: S::Id,
) -> Result<(), SpaceFault>
    requires end { IsKnown (S.sets space.old) ended.now.set }
    requires set { IsKnown (S.sets space.old) set }
    requires scope { IsKnown (S.sets space.old) scope }
    requires sound { IsSound (S.sets space.old) S.Id.cmp finding.old }
    ensures extends { Extends (S.sets space.old) (S.sets space.new) }
    ensures sound { OnOk result (IsSound (S.sets space.new) S.Id.cmp finding.new) }
    ensures found { OnOk result (FindsAt (S.sets space.old) (S.sets space.new) scope ended.now (option_copied line.entry) set finding.old finding.new) }
{
    if is_good(ended, line) {
        return Ok(());
    }
    let way = space.and(ended.set, set)?;
    let failing = space.or(finding.failing, way)?;
    finding.failing = failing;
    push_told(alloc, space, finding, scope, ended, number_of(line), way)?;
    Ok(())
}

/// Finds the configurations of a set whose end isn't good there.
pub fn find<S: Space>(
    alloc: Global,
    space: &mut S,
    finding: &mut Finding<S::Id>,
    scope: S::Id,
    ends: &[Ended<S::Id>],
    line: Option<&Expectation>,
    set: S::Id,
) -> Result<(), SpaceFault>
    requires ends { AreKnownEnds (S.sets space.old) ends.now }
    requires set { IsKnown (S.sets space.old) set }
    requires scope { IsKnown (S.sets space.old) scope }
    requires sound { IsSound (S.sets space.old) S.Id.cmp finding.old }
    ensures extends { Extends (S.sets space.old) (S.sets space.new) }
    ensures sound { OnOk result (IsSound (S.sets space.new) S.Id.cmp finding.new) }
    ensures found { OnOk result (FindsIn (S.sets space.old) (S.sets space.new) scope ends.now (option_copied line.entry) set finding.old finding.new) }
{
    for ended in ends {
        find_ended(alloc, space, finding, scope, ended, line, set)?;
    }
    Ok(())
}
