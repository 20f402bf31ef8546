//! Runs that stop at a row that needs a class: where the row breaks a rule before it needs the class, where the class has
//! failed, and where its initialisation begins (JVMS 5.5, 6.5).

ghost use Rattle.std.specs.Prelude.{◌&&◌, IfOk, not};
ghost use Rattle.vx_group.specs.Group.{IsGroup, IsPartOf, path_of};
ghost use Rattle.vx_heap.specs.Heap.{HeapView};
ghost use Rattle.vx_java.specs.Ids.{HasClassNumbers};
ghost use Rattle.vx_java.specs.Machine.{Begin as BeginOf, illegal as illegal_of, raise as raise_of, when};
ghost use Rattle.vx_space.specs.Sets.{Extends, IsKnown};
ghost use Rattle.vx_group_states.specs.Sites.{Gives, GivesAt, here};
ghost use Rattle.vx_ready.specs.Initialising.{GivesWithin, stopped_by};

use crate::initialising::Readiness;
use std::alloc::{AllocError, Global};
use vx_families::raise;
use vx_group::Group;
use vx_group_states::{Site, illegal};
use vx_outcome::{Outcome, Outcomes};
use vx_space::{Space, SpaceFault};
use vx_value::ClassId;

/// Runs whose class has failed. No runs come to no outcome.
fn failed_part<S: Space>(
    alloc: Global,
    site: &Site,
    space: &S,
    group: Group<S>,
) -> Result<Outcomes<S>, AllocError>
    requires classes { HasClassNumbers site.now.program.now }
    requires group { IsGroup (S.sets space.now) group }
    ensures { IfOk result (λ r. Gives site.now.program.now (λ s. raise_of (here site.now s) "java/lang/NoClassDefFoundError") (S.sets space.now) (S.sets space.now) group r.items.items) }
{
    if space.is_never(group.path()) {
        return Ok(Outcomes::new(alloc));
    }
    raise(
        alloc,
        site.program,
        group,
        b"java/lang/NoClassDefFoundError",
    )
}

/// Runs that begin the initialisation of a class. No runs come to no outcome.
fn begun_part<S: Space>(
    alloc: Global,
    site: &Site,
    space: &S,
    group: Group<S>,
    class: ClassId,
) -> Result<Outcomes<S>, AllocError>
    requires { IsGroup (S.sets space.now) group }
    ensures { IfOk result (λ r. Gives site.now.program.now (λ s. BeginOf class.0 s) (S.sets space.now) (S.sets space.now) group r.items.items) }
{
    let mut outcomes = Outcomes::new(alloc);
    if space.is_never(group.path()) {
        return Ok(outcomes);
    }
    outcomes.push(Outcome::Begin { group, class })?;
    Ok(outcomes)
}

/// Runs that break a rule of the instruction. No runs come to no outcome.
pub fn ended_part<S: Space>(
    alloc: Global,
    site: &Site,
    space: &S,
    group: Group<S>,
) -> Result<Outcomes<S>, SpaceFault>
    requires { IsGroup (S.sets space.now) group }
    ensures { IfOk result (λ r. Gives site.now.program.now (λ s. illegal_of (here site.now s)) (S.sets space.now) (S.sets space.now) group r.items.items) }
{
    if space.is_never(group.path()) {
        return Ok(Outcomes::new(alloc));
    }
    illegal(alloc, site.program, &group)
}

/// Runs that need a class that isn't ready: it has failed, or its initialisation begins.
fn unready_parts<S: Space>(
    alloc: Global,
    site: &Site,
    space: &mut S,
    group: Group<S>,
    class: ClassId,
    fails: S::Id,
) -> Result<Outcomes<S>, SpaceFault>
    requires classes { HasClassNumbers site.now.program.now }
    requires group { IsGroup (S.sets space.old) group }
    requires fails { IsKnown (S.sets space.old) fails }
    ensures extends { Extends (S.sets space.old) (S.sets space.new) }
    ensures gives { IfOk result (λ r. (heap : HeapView S S.Id) → GivesAt site.now.program.now (λ _ c s. when ((S.sets space.old).test fails c) (raise_of (here site.now s) "java/lang/NoClassDefFoundError") (BeginOf class.0 s)) (S.sets space.old) (S.sets space.new) group r.items.items heap) }
{
    let (failing, beginning) = group.split(space, fails)?;
    let mut outcomes = failed_part(alloc, site, space, failing)?;
    let begun = begun_part(alloc, site, space, beginning, class)?;
    outcomes.append(begun)?;
    Ok(outcomes)
}

/// Runs that don't proceed.
fn stopped_parts<S: Space>(
    alloc: Global,
    site: &Site,
    space: &mut S,
    group: Group<S>,
    class: ClassId,
    needs: S::Id,
    fails: S::Id,
) -> Result<Outcomes<S>, SpaceFault>
    requires classes { HasClassNumbers site.now.program.now }
    requires group { IsGroup (S.sets space.old) group }
    requires needs { IsKnown (S.sets space.old) needs }
    requires fails { IsKnown (S.sets space.old) fails }
    ensures extends { Extends (S.sets space.old) (S.sets space.new) }
    ensures gives { IfOk result (λ r. (heap : HeapView S S.Id) → GivesAt site.now.program.now (stopped_by site.now class.0 (S.sets space.old) needs fails) (S.sets space.old) (S.sets space.new) group r.items.items heap) }
{
    let (needing, breaking) = group.split(space, needs)?;
    let ended = ended_part(alloc, site, space, breaking)?;
    let mut outcomes = unready_parts(alloc, site, space, needing, class, fails)?;
    outcomes.append(ended)?;
    Ok(outcomes)
}

/// The part of a group that proceeds, and what comes of the others: those that don't need the class break a rule of the
/// instruction, those whose class has failed raise an exception, and the initialisation of the class begins elsewhere.
pub fn stop_others<S: Space>(
    alloc: Global,
    site: &Site,
    space: &mut S,
    group: Group<S>,
    class: ClassId,
    needs: S::Id,
    readiness: &Readiness<S>,
) -> Result<(Group<S>, Outcomes<S>), SpaceFault>
    requires classes { HasClassNumbers site.now.program.now }
    requires group { IsGroup (S.sets space.old) group }
    requires needs { IsKnown (S.sets space.old) needs }
    requires proceeds { IsKnown (S.sets space.old) readiness.now.proceeds }
    requires fails { IsKnown (S.sets space.old) readiness.now.fails }
    ensures extends { Extends (S.sets space.old) (S.sets space.new) }
    ensures going { IfOk result (λ r. IsPartOf (S.sets space.old) (S.sets space.new) (λ c. (S.sets space.old).test (path_of group) c && (S.sets space.old).test readiness.now.proceeds c) group r.0) }
    ensures others { IfOk result (λ r. (heap : HeapView S S.Id) → GivesWithin site.now.program.now (stopped_by site.now class.0 (S.sets space.old) needs readiness.now.fails) (λ c. (S.sets space.old).test (path_of group) c && not ((S.sets space.old).test readiness.now.proceeds c)) (S.sets space.old) (S.sets space.new) group r.1.items.items heap) }
{
    let (going, rest) = group.split(space, readiness.proceeds)?;
    let outcomes = stopped_parts(alloc, site, space, rest, class, needs, readiness.fails)?;
    Ok((going, outcomes))
}
