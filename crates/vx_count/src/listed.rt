//! The first settings at which a report has an end.

ghost use Rattle.std.specs.Prelude.{◌≡◌, IfOk, length};
ghost use Rattle.vx_space.specs.Sets.{Extends, IsKnown};
ghost use Rattle.vx_report_reader.specs.Lawful.{IsLawful};
ghost use Rattle.vx_count.specs.Listed.{first_settings, listed_of};
ghost use Rattle.vx_count.specs.Settings.{number};

use crate::counting::count_of;
use crate::first::firsts;
use std::alloc::{AllocError, Global};
use std::collections::BTreeMap;
use vx_bdd_tools::sets_of;
use vx_cover::ended;
use vx_list::Items;
use vx_report::Report;
use vx_space::{Config, Space, SpaceFault};

/// The first settings that have an end.
#[derive(Drop)]
pub struct Listed {
    /// How many have one, at most 2^64.
    pub of: u128,
    /// Off stands before on, and the first option changes slowest.
    pub configurations: Items<Config>,
}

/// How many settings a set has, and the first n of them.
fn listed_in<S: Space>(alloc: Global, space: &S, set: S::Id, n: u64) -> Result<Listed, AllocError>
    requires { IsKnown (S.sets space.now) set }
    ensures of { IfOk result (λ listed. listed.of ≡ number (S.sets space.now).options ((S.sets space.now).test set)) }
    ensures configurations { IfOk result (λ listed. listed.configurations ≡ first_settings n (S.sets space.now).options ((S.sets space.now).test set)) }
{
    let mut numbers = BTreeMap::new(alloc);
    let of = count_of(space, &mut numbers, set)?;
    let configurations = firsts(alloc, space, set, n)?;
    Ok(Listed {
        of,
        configurations: Items::of(configurations),
    })
}

/// How many settings have an end, and the first n of them: those that the report's model allows, where it is the report of a run.
pub fn list_report<S: Space>(
    alloc: Global,
    space: &mut S,
    report: &Report,
    n: u64,
) -> Result<Listed, SpaceFault>
    requires lawful { IsLawful report.now }
    requires options { length report.now.options ≡ (S.sets space.old).options }
    ensures extends { Extends (S.sets space.old) (S.sets space.new) }
    ensures listed { IfOk result (λ listed. listed ≡ listed_of n report.now) }
{
    let sets = sets_of(alloc, space, report.nodes.as_slice())?;
    let set = ended(space, report, sets.as_slice())?;
    Ok(listed_in(alloc, space, set, n)?)
}
