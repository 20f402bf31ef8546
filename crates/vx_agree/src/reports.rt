//! The configurations at which two reports say the same.

ghost use Rattle.std.specs.Prelude.{◌≡◌, IfOk, length};
ghost use Rattle.vx_space.specs.Sets.{Extends};
ghost use Rattle.vx_bdd_tools.specs.Listing.{AreSetsOf};
ghost use Rattle.vx_report_reader.specs.Lawful.{IsLawful};
ghost use Rattle.vx_agree.specs.Agreement.{IsAgreement};
ghost use Rattle.vx_agree.specs.Ends.{AreAscending};

use crate::ends::same_end;
use crate::output::same_output;
use std::alloc::Global;
use vx_bdd_tools::sets_of;
use vx_report::Report;
use vx_space::{Space, SpaceFault};

/// The agreement of two reports, from the sets of their nodes. Outputs are compared only where the ends are equal.
fn agreement_of<S: Space>(
    alloc: Global,
    space: &mut S,
    one: &Report,
    one_sets: &[S::Id],
    other: &Report,
    sets: &[S::Id],
) -> Result<S::Id, SpaceFault>
    requires one { AreSetsOf (S.sets space.old) one.now.nodes one_sets.now }
    requires sets { AreSetsOf (S.sets space.old) other.now.nodes sets.now }
    requires ends { AreAscending one.now.ends }
    requires other_ends { AreAscending other.now.ends }
    ensures extends { Extends (S.sets space.old) (S.sets space.new) }
    ensures agreement { IfOk result (IsAgreement (S.sets space.new) one.now other.now) }
{
    let end = same_end(space, one, one_sets, other, sets)?;
    let output = same_output(alloc, space, one, one_sets, other, sets, end)?;
    space.and(output, end)
}

/// The configurations at which two reports over the same options have equal output, as bytes on streams in order, and an
/// equal end, the first end that holds the configuration. Numbers of attempts, rounds and limits are not compared.
pub fn agreement<S: Space>(
    alloc: Global,
    space: &mut S,
    one: &Report,
    other: &Report,
) -> Result<S::Id, SpaceFault>
    requires one { IsLawful one.now }
    requires other { IsLawful other.now }
    requires names { one.now.options ≡ other.now.options }
    requires options { length one.now.options ≡ (S.sets space.old).options }
    ensures extends { Extends (S.sets space.old) (S.sets space.new) }
    ensures agreement { IfOk result (IsAgreement (S.sets space.new) one.now other.now) }
{
    let one_sets = sets_of(alloc, space, one.nodes.as_slice())?;
    let sets = sets_of(alloc, space, other.nodes.as_slice())?;
    agreement_of(
        alloc,
        space,
        one,
        one_sets.as_slice(),
        other,
        sets.as_slice(),
    )
}
