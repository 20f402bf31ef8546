//! The configurations at which a report has an end, and those of each end.

ghost use Rattle.std.specs.Prelude.{IfOk};
ghost use Rattle.vx_space.specs.Sets.{Extends, IsSet};
ghost use Rattle.vx_bdd_tools.specs.Listing.{AreSetsOf};
ghost use Rattle.vx_cover.specs.Covers.{has_end};
ghost use Rattle.vx_cover.specs.Scopes.{AreFirstEnds};

use std::alloc::Global;
use vx_bdd_tools::set_of;
use vx_report::Report;
use vx_space::{Space, SpaceFault};

/// The configurations at which a report has an end, from the sets of its nodes: those that its model allows, where it is the
/// report of a run.
pub fn ended<S: Space>(space: &mut S, report: &Report, sets: &[S::Id]) -> Result<S::Id, SpaceFault>
    requires { AreSetsOf (S.sets space.old) report.now.nodes sets.now }
    ensures extends { Extends (S.sets space.old) (S.sets space.new) }
    ensures ended { IfOk result (λ id. IsSet (S.sets space.new) id (has_end report.now)) }
{
    let mut found = space.never();
    for line in report.ends.as_slice() {
        let set = set_of(space, sets, line.node);
        found = space.or(found, set)?;
    }
    Ok(found)
}

/// For each end of a report, from the sets of its nodes, the configurations whose end it is: the first one whose node holds them.
pub fn first_ends<S: Space>(
    alloc: Global,
    space: &mut S,
    report: &Report,
    sets: &[S::Id],
) -> Result<Vec<S::Id>, SpaceFault>
    requires { AreSetsOf (S.sets space.old) report.now.nodes sets.now }
    ensures extends { Extends (S.sets space.old) (S.sets space.new) }
    ensures ends { IfOk result (λ firsts. AreFirstEnds (S.sets space.new) report.now firsts.items) }
{
    let mut rest = space.always();
    let mut firsts = Vec::new(alloc);
    for line in report.ends.as_slice() {
        let set = set_of(space, sets, line.node);
        let part = space.and(rest, set)?;
        firsts.push(part)?;
        rest = space.minus(rest, set)?;
    }
    Ok(firsts)
}
