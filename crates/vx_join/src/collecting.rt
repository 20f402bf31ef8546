//! What several reports say, in one space: each text, end and number of attempts with the configurations of which the first report
//! says it in which they have an end.

ghost use Rattle.std.specs.Prelude.{◌≡◌, ◌++◌, ◌∷◌, [], Bool, List, not, ◌&&◌, IfOk, OnOk, length, map};
ghost use Rattle.std.specs.List.{AllByRecursion};
ghost use Rattle.vx_space.specs.Sets.{Extends, IsKnown, IsSet};
ghost use Rattle.vx_bdd_tools.specs.Listing.{AreSetsOf};
ghost use Rattle.vx_cond.specs.Leaves.{AreLeaves, AreLeavesOf, IsApart, value_at};
ghost use Rattle.vx_cover.specs.Covers.{some_hold};
ghost use Rattle.vx_findings.specs.Shared.{leaves_of};
ghost use Rattle.vx_report_reader.specs.Lawful.{IsLawful};
ghost use Rattle.vx_join.specs.Joined.{IsLike, Told, told_of};
ghost use Rattle.vx_join.specs.Steps.{AreCollected, AreTold, IsOneMore, IsPartly, first_in, inside};

use crate::entry::Entry;
use std::alloc::{AllocError, Global};
use vx_bdd_tools::{set_of, sets_of};
use vx_findings::{Piece, Shared, add};
use vx_report::{AttemptLine, EndLine, Piece as PieceLine, Report};
use vx_space::{Space, SpaceFault};
use vx_value::End;

/// What reports say, each with its configurations.
#[derive(Drop)]
pub struct Collected<S: Space> {
    /// The texts of one report after the other, each of some configuration.
    pub found: Vec<Shared<Piece, S>>,
    /// The ends, ascending.
    pub ends: Vec<Shared<End, S>>,
    /// The numbers of attempts, ascending.
    pub spent: Vec<Shared<u64, S>>,
}

/// Puts the values of a report's entries, each in those unsaid configurations of which it is the first one, and gives the
/// configurations that stay unsaid. None of them has a value before.
fn put_firsts<E: Entry, S: Space>(
    alloc: Global,
    space: &mut S,
    values: &mut Vec<Shared<E::Value, S>>,
    report: &Report,
    sets: &[S::Id],
    unsaid: S::Id,
) -> Result<S::Id, SpaceFault>
    requires sets { AreSetsOf (S.sets space.old) report.now.nodes sets.now }
    requires unsaid { IsKnown (S.sets space.old) unsaid }
    requires leaves { AreLeaves E.Value.order (S.sets space.old) (leaves_of values.old.items) }
    requires apart { IsApart (S.sets space.old) unsaid (leaves_of values.old.items) }
    ensures extends { Extends (S.sets space.old) (S.sets space.new) }
    ensures values { OnOk result (AreLeavesOf E.Value.order (S.sets space.new)
        (inside ((S.sets space.old).test unsaid) (first_in E.node_of E.value_of report.now.nodes (E.all_of report.now)) (value_at (S.sets space.old) (leaves_of values.old.items)))
        (leaves_of values.new.items)) }
    ensures rest { IfOk result (λ rest. IsSet (S.sets space.new) rest (λ c. (S.sets space.old).test unsaid c && not (some_hold report.now.nodes (map E.node_of (E.all_of report.now)) c))) }
{
    let mut rest = unsaid;
    for entry in E::all(report) {
        let set = set_of(space, sets, entry.node());
        let part = space.and(rest, set)?;
        let value = entry.value(alloc)?;
        add(space, values, value, part)?;
        rest = space.minus(rest, set)?;
    }
    Ok(rest)
}

/// Puts a text with its set, unless no configuration has it.
fn put_piece<S: Space>(
    alloc: Global,
    space: &S,
    found: &mut Vec<Shared<Piece, S>>,
    piece: &PieceLine,
    condition: S::Id,
) -> Result<(), AllocError>
    requires { IsKnown (S.sets space.now) condition }
    ensures { OnOk result ((test : List Bool → Bool) (told : List Told) → IsSet (S.sets space.now) condition test → AreTold (S.sets space.now) found.old.items told →
        AreTold (S.sets space.now) found.new.items (told ++ record { stream = piece.now.stream; text = piece.now.text; set = test } ∷ [])) }
{
    if space.is_never(condition) {
        return Ok(());
    }
    let value = piece.value(alloc)?;
    found.push(Shared { condition, value })?;
    Ok(())
}

/// Puts the texts of a report within a scope, but those that no configuration has.
fn put_pieces<S: Space>(
    alloc: Global,
    space: &mut S,
    found: &mut Vec<Shared<Piece, S>>,
    report: &Report,
    sets: &[S::Id],
    scope: S::Id,
) -> Result<(), SpaceFault>
    requires sets { AreSetsOf (S.sets space.old) report.now.nodes sets.now }
    requires scope { IsKnown (S.sets space.old) scope }
    ensures extends { Extends (S.sets space.old) (S.sets space.new) }
    ensures found { OnOk result ((told : List Told) → AreTold (S.sets space.old) found.old.items told →
        AreTold (S.sets space.new) found.new.items (told ++ map (told_of ((S.sets space.old).test scope) report.now.nodes) report.now.pieces)) }
{
    for piece in report.pieces.as_slice() {
        let set = set_of(space, sets, piece.node);
        let condition = space.and(scope, set)?;
        put_piece(alloc, space, found, piece, condition)?;
    }
    Ok(())
}

/// Puts what a report says in its scope, those unsaid configurations that have an end in it, and gives those that stay unsaid.
fn put_report<S: Space>(
    alloc: Global,
    space: &mut S,
    collected: &mut Collected<S>,
    report: &Report,
    unsaid: S::Id,
) -> Result<S::Id, SpaceFault>
    requires lawful { IsLawful report.now }
    requires options { length report.now.options ≡ (S.sets space.old).options }
    requires before { IsPartly (S.sets space.old) unsaid collected.old }
    ensures extends { Extends (S.sets space.old) (S.sets space.new) }
    ensures more { IfOk result (λ rest. IsOneMore (S.sets space.old) (S.sets space.new) unsaid report.now collected.old rest collected.new) }
{
    let sets = sets_of(alloc, space, report.nodes.as_slice())?;
    let sets = sets.as_slice();
    let rest = put_firsts::<EndLine, S>(alloc, space, &mut collected.ends, report, sets, unsaid)?;
    let scope = space.minus(unsaid, rest)?;
    put_firsts::<AttemptLine, S>(alloc, space, &mut collected.spent, report, sets, scope)?;
    put_pieces(alloc, space, &mut collected.found, report, sets, scope)?;
    Ok(rest)
}

/// What some reports say, each with its configurations.
pub fn collect<S: Space>(
    alloc: Global,
    space: &mut S,
    first: &Report,
    others: &[Report],
) -> Result<Collected<S>, SpaceFault>
    requires first { IsLawful first.now }
    requires others { AllByRecursion IsLawful others.now }
    requires like { AllByRecursion (IsLike first.now) others.now }
    requires options { length first.now.options ≡ (S.sets space.old).options }
    ensures extends { Extends (S.sets space.old) (S.sets space.new) }
    ensures collected { IfOk result (AreCollected (S.sets space.new) (first.now ∷ others.now)) }
{
    let mut collected = Collected {
        found: Vec::new(alloc),
        ends: Vec::new(alloc),
        spent: Vec::new(alloc),
    };
    let always = space.always();
    let mut unsaid = put_report(alloc, space, &mut collected, first, always)?;
    for report in others {
        unsaid = put_report(alloc, space, &mut collected, report, unsaid)?;
    }
    Ok(collected)
}
