//! Each piece and each end of a report with its rule and an example.

ghost use Rattle.std.specs.Prelude.{◌≡◌, IfOk, length};
ghost use Rattle.std.specs.BTreeMap.{IsEmpty, get};
ghost use Rattle.std.specs.Ordering.{nat_cmp};
ghost use Rattle.vx_space.specs.Sets.{Extends, IsSet};
ghost use Rattle.vx_bdd_tools.specs.Listing.{AreSetsOf};
ghost use Rattle.vx_report_reader.specs.Lawful.{IsLawful};
ghost use Rattle.vx_cover.specs.Covers.{has_end};
ghost use Rattle.vx_explain.specs.Explanations.{AreExplained, AreExplainedOf, IsFound, IsTold, KeepsTold, subjects_asked};

use crate::candidates::rule_within;
use crate::rule::Rule;
use std::alloc::{AllocError, Global};
use std::collections::BTreeMap;
use vx_bdd_tools::{one_of, set_of, sets_of};
use vx_cover::ended;
use vx_picture::subject::end_subjects;
use vx_picture::{Subject, subjects};
use vx_report::Report;
use vx_space::{Config, Space, SpaceFault};

/// Which pieces and ends are asked for.
#[derive(Clone, Copy)]
pub enum Asked {
    Everything,
    Ends,
}

/// Under which rule configurations have something, and one that does.
#[derive(Drop)]
pub struct Told {
    /// True just where a configuration has it, among those that have an end; none where there is none of at most 32 terms.
    pub rule: Option<Rule>,
    /// A configuration that has it and an end, with a value for each option; none where there is none.
    pub example: Option<Config>,
}

/// A piece or an end of a report, and the place of what is told of it.
#[derive(Drop)]
pub struct Explained {
    pub subject: Subject,
    pub place: usize,
}

/// What is told of pieces and ends, once for each node.
#[derive(Drop)]
pub struct Explanation {
    pub told: Vec<Told>,
    pub explained: Vec<Explained>,
}

/// What was told so far, and at which place of each node.
#[derive(Drop)]
struct Known {
    pub told: Vec<Told>,
    pub places: BTreeMap<u64, usize>,
}

/// Nothing is told yet.
fn nothing_known(alloc: Global) -> Known
    ensures { IsEmpty result.places }
{
    Known {
        told: Vec::new(alloc),
        places: BTreeMap::new(alloc),
    }
}

/// What is told of a node of a report, among the configurations of a scope: those that have an end.
fn tell_node<S: Space>(
    alloc: Global,
    space: &mut S,
    report: &Report,
    sets: &[S::Id],
    scope: S::Id,
    node: u64,
) -> Result<Told, SpaceFault>
    requires sets { AreSetsOf (S.sets space.old) report.now.nodes sets.now }
    requires options { length report.now.options ≡ (S.sets space.old).options }
    requires scope { IsSet (S.sets space.old) scope (has_end report.now) }
    ensures extends { Extends (S.sets space.old) (S.sets space.new) }
    ensures told { IfOk result (IsTold report.now node) }
{
    let set = set_of(space, sets, node);
    let both = space.and(set, scope)?;
    let example = one_of(alloc, space, both)?;
    let rule = rule_within(alloc, space, set, scope)?;
    Ok(Told { rule, example })
}

/// The place of what is told of a node, which is told where it isn't yet.
fn place_of<S: Space>(
    alloc: Global,
    space: &mut S,
    known: &mut Known,
    report: &Report,
    sets: &[S::Id],
    scope: S::Id,
    node: u64,
) -> Result<usize, SpaceFault>
    requires sets { AreSetsOf (S.sets space.old) report.now.nodes sets.now }
    requires options { length report.now.options ≡ (S.sets space.old).options }
    requires scope { IsSet (S.sets space.old) scope (has_end report.now) }
    requires known { KeepsTold report.now known.old.told.items (get nat_cmp known.old.places) }
    ensures extends { Extends (S.sets space.old) (S.sets space.new) }
    ensures place { IfOk result (IsFound report.now known.old.told.items known.new.told.items (get nat_cmp known.new.places) node) }
{
    if let Some(place) = known.places.get(&node) {
        return Ok(*place);
    }
    let told = tell_node(alloc, space, report, sets, scope, node)?;
    let place = known.told.len();
    known.told.push(told)?;
    known.places.insert(node, place)?;
    Ok(place)
}

/// What is told of pieces and ends among the configurations of a scope.
fn all_explained<S: Space>(
    alloc: Global,
    space: &mut S,
    report: &Report,
    sets: &[S::Id],
    scope: S::Id,
    subjects: &[Subject],
) -> Result<Explanation, SpaceFault>
    requires sets { AreSetsOf (S.sets space.old) report.now.nodes sets.now }
    requires options { length report.now.options ≡ (S.sets space.old).options }
    requires scope { IsSet (S.sets space.old) scope (has_end report.now) }
    ensures extends { Extends (S.sets space.old) (S.sets space.new) }
    ensures explained { IfOk result (AreExplainedOf report.now subjects.now) }
{
    let mut known = nothing_known(alloc);
    let mut explained = Vec::new(alloc);
    for subject in subjects {
        let place = place_of(alloc, space, &mut known, report, sets, scope, subject.node)?;
        explained.push(explained_at(alloc, subject, place)?)?;
    }
    let Known { told, places: _ } = known;
    Ok(Explanation { told, explained })
}

/// A piece or an end with the place of what is told of it.
fn explained_at(alloc: Global, subject: &Subject, place: usize) -> Result<Explained, AllocError>
    ensures subject { IfOk result (λ e. e.subject ≡ subject.now) }
    ensures place { IfOk result (λ e. e.place ≡ place) }
{
    let subject = subject.copied(alloc)?;
    Ok(Explained { subject, place })
}

/// The pieces and ends that are asked for.
fn subjects_asked(alloc: Global, report: &Report, asked: Asked) -> Result<Vec<Subject>, AllocError>
    ensures { IfOk result (λ found. found.items ≡ subjects_asked asked report.now) }
{
    match asked {
        Asked::Everything => subjects(alloc, report),
        Asked::Ends => end_subjects(alloc, report),
    }
}

/// The ends of a report that are not `return`, then `return`, then the pieces where they are asked for, each with a rule that is true
/// just where the configuration has it, among those that have an end, and with one configuration that has it and an end, where there is
/// one. The rule is that of `rule_within` among these configurations, so it speaks as little as this allows of what the model forbids; it is
/// made once for each node.
pub fn explain<S: Space>(
    alloc: Global,
    space: &mut S,
    report: &Report,
    asked: Asked,
) -> Result<Explanation, SpaceFault>
    requires lawful { IsLawful report.now }
    requires options { length report.now.options ≡ (S.sets space.old).options }
    ensures extends { Extends (S.sets space.old) (S.sets space.new) }
    ensures explained { IfOk result (AreExplained asked report.now) }
{
    let sets = sets_of(alloc, space, report.nodes.as_slice())?;
    let subjects = subjects_asked(alloc, report, asked)?;
    let scope = ended(space, report, sets.as_slice())?;
    all_explained(
        alloc,
        space,
        report,
        sets.as_slice(),
        scope,
        subjects.as_slice(),
    )
}
