//! Whether each configuration of a report ends as it should.

ghost use Rattle.std.specs.Prelude.{◌≡◌, IfOk, OnOk, length};
ghost use Rattle.std.specs.BTreeMap.{get};
ghost use Rattle.vx_space.specs.Sets.{Extends, IsKnown, IsSet};
ghost use Rattle.vx_cover.specs.Covers.{has_end};
ghost use Rattle.vx_report_reader.specs.Lawful.{IsLawful};
ghost use Rattle.vx_check.specs.Expected.{AreOf};
ghost use Rattle.vx_check.specs.Failing.{spoken};
ghost use Rattle.vx_check.specs.Finding.{FindsMissed, HasFound, IsCounted, IsSound};
ghost use Rattle.vx_check.specs.Lines.{AreKnownEnds};
ghost use Rattle.vx_check.specs.Text.{IsChecked};
ghost use Rattle.vx_check.specs.Ways.{IsSortedOf};

use crate::ended::{Ended, ended_of};
use crate::expected::Expectation;
use crate::finding::{Finding, find};
use crate::told::{Checked, Told};
use std::alloc::{AllocError, Global};
use std::cmp::Reverse;
use std::collections::BTreeMap;
use vx_bdd_tools::sets_of;
use vx_count::count_of;
use vx_cover::{ended, first_ends};
use vx_list::Items;
use vx_model::allowed;
use vx_report::Report;
use vx_space::{Space, SpaceFault};

/// Finds what misses a line, and gives the configurations of which a line speaks.
fn find_missed<S: Space>(
    alloc: Global,
    space: &mut S,
    finding: &mut Finding<S::Id>,
    scope: S::Id,
    ends: &[Ended<S::Id>],
    expected: &[Expectation],
) -> Result<S::Id, SpaceFault>
    requires ends { AreKnownEnds (S.sets space.old) ends.now }
    requires scope { IsKnown (S.sets space.old) scope }
    requires expected { AreOf (S.sets space.old).options expected.now }
    requires sound { IsSound (S.sets space.old) S.Id.cmp finding.old }
    ensures extends { Extends (S.sets space.old) (S.sets space.new) }
    ensures sound { OnOk result (IsSound (S.sets space.new) S.Id.cmp finding.new) }
    ensures spoken { IfOk result (λ id. IsSet (S.sets space.new) id (spoken expected.now)) }
    ensures found { OnOk result (FindsMissed (S.sets space.old) (S.sets space.new) scope ends.now expected.now finding.old finding.new) }
{
    let mut spoken = space.never();
    for line in expected {
        let set = allowed(space, &line.model)?;
        spoken = space.or(spoken, set)?;
        find(alloc, space, finding, scope, ends, Some(line), set)?;
    }
    Ok(spoken)
}

/// Finds the configurations that fail.
fn find_all<S: Space>(
    alloc: Global,
    space: &mut S,
    scope: S::Id,
    ends: &[Ended<S::Id>],
    expected: &[Expectation],
) -> Result<Finding<S::Id>, SpaceFault>
    requires ends { AreKnownEnds (S.sets space.old) ends.now }
    requires scope { IsKnown (S.sets space.old) scope }
    requires expected { AreOf (S.sets space.old).options expected.now }
    ensures extends { Extends (S.sets space.old) (S.sets space.new) }
    ensures sound { IfOk result (IsSound (S.sets space.new) S.Id.cmp) }
    ensures found { IfOk result (HasFound (S.sets space.old) (S.sets space.new) scope ends.now expected.now) }
{
    let mut finding = Finding {
        numbers: BTreeMap::new(alloc),
        told: Vec::new(alloc),
        failing: space.never(),
    };
    let spoken = find_missed(alloc, space, &mut finding, scope, ends, expected)?;
    let always = space.always();
    let unspoken = space.minus(always, spoken)?;
    find(alloc, space, &mut finding, scope, ends, None, unspoken)?;
    Ok(finding)
}

/// Puts the worst first.
fn sort(told: &mut Vec<Told>) -> Result<(), AllocError>
    ensures { OnOk result (IsSortedOf told.old.items told.new.items) }
{
    told.sort_by_key(|t| (t.rank, Reverse(t.number), t.place))?;
    Ok(())
}

/// What was found, sorted and counted.
fn checked<S: Space>(
    space: &S,
    scope: S::Id,
    finding: Finding<S::Id>,
) -> Result<Checked, AllocError>
    requires scope { IsKnown (S.sets space.now) scope }
    requires sound { IsSound (S.sets space.now) S.Id.cmp finding }
    ensures { IfOk result (IsCounted (S.sets space.now) scope finding) }
{
    let Finding {
        mut numbers,
        mut told,
        failing,
    } = finding;
    let of = count_of(space, &mut numbers, scope)?;
    let failing = count_of(space, &mut numbers, failing)?;
    sort(&mut told)?;
    Ok(Checked {
        of,
        failing,
        told: Items::of(told),
    })
}

/// Whether each configuration of a report that has an end ends as it should: as each line says that speaks of it, or, where none does, with
/// `return` or `exit 0`. How many don't, and in which ways: for each line and each end that it doesn't fit, and for each end that should not be
/// where no line speaks; the worst ends first.
pub fn check_report<S: Space>(
    alloc: Global,
    space: &mut S,
    report: &Report,
    expected: &[Expectation],
) -> Result<Checked, SpaceFault>
    requires lawful { IsLawful report.now }
    requires options { length report.now.options ≡ (S.sets space.old).options }
    requires expected { AreOf (length report.now.options) expected.now }
    ensures extends { Extends (S.sets space.old) (S.sets space.new) }
    ensures checked { IfOk result (IsChecked report.now expected.now) }
{
    let sets = sets_of(alloc, space, report.nodes.as_slice())?;
    let scope = ended(space, report, sets.as_slice())?;
    let firsts = first_ends(alloc, space, report, sets.as_slice())?;
    let ends = ended_of(alloc, report, firsts.as_slice())?;
    let finding = find_all(alloc, space, scope, ends.as_slice(), expected)?;
    Ok(checked(space, scope, finding)?)
}
