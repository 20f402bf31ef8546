//! Native methods and beginnings, carried out where a family left them.

ghost use Rattle.std.specs.Prelude.{◌≡◌, ◌∷◌, [], IfOk};
ghost use Rattle.std.specs.List.{list_all};
ghost use Rattle.vx_space.specs.Sets.{Extends};
ghost use Rattle.vx_java.specs.Step.{outcome_carried_out};
ghost use Rattle.vx_outcome.specs.declared.outcome.Outcome.TheVariants.{Native};
ghost use Rattle.vx_standing.specs.Attempted.{is_placed};
ghost use Rattle.vx_attempt.specs.Carrying.{AreCarriedOut, MayCarryOut};

use std::alloc::{AllocError, Global};
use vx_group::{Callers, Group};
use vx_group_states::Site;
use vx_heap::Heap;
use vx_init::begin;
use vx_lang::native;
use vx_outcome::{Outcome, Outcomes};
use vx_space::{Space, SpaceFault};
use vx_value::MethodId;

/// The outcome of a native method. One to which no configuration comes is dropped.
fn native_carried_out<S: Space>(
    alloc: Global,
    site: &Site,
    space: &mut S,
    heap: &mut Heap<S>,
    callers: &Callers<S>,
    group: Group<S>,
    method: MethodId,
) -> Result<Outcomes<S>, SpaceFault>
    requires { MayCarryOut site.now (S.sets space.old) heap.old callers.now (Native group method ∷ []) }
    ensures extends { Extends (S.sets space.old) (S.sets space.new) }
    ensures carried { IfOk result (λ r. AreCarriedOut site.now.program.now (outcome_carried_out site.now.program.now) (S.sets space.old) (S.sets space.new) heap.old heap.new callers.now callers.now (Native group method ∷ []) r.items.items) }
{
    if space.is_never(group.path()) {
        return Ok(Outcomes::new(alloc));
    }
    native(alloc, site, space, heap, group, method)
}

/// Whether the runs of an outcome go on or have ended, so that nothing is left to be carried out.
fn is_done<S: Space>(outcome: &Outcome<S>) -> bool
    ensures { result ≡ is_placed outcome.now }
{
    match outcome {
        Outcome::Go { .. } | Outcome::Write { .. } | Outcome::Ended { .. } => true,
        Outcome::Raise { .. }
        | Outcome::Throw { .. }
        | Outcome::Begin { .. }
        | Outcome::Native { .. } => false,
    }
}

/// Whether nothing is left to be carried out of these outcomes.
pub(crate) fn are_done<S: Space>(outcomes: &Outcomes<S>) -> bool
    ensures { result ≡ list_all is_placed outcomes.now.items.items }
{
    outcomes.items.iter().all(|outcome| is_done(outcome))
}

/// An outcome alone.
pub(crate) fn only<S: Space>(alloc: Global, outcome: Outcome<S>) -> Result<Outcomes<S>, AllocError>
    ensures { IfOk result (λ r. r.items.items ≡ outcome ∷ []) }
{
    let mut outcomes = Outcomes::new(alloc);
    outcomes.push(outcome)?;
    Ok(outcomes)
}

/// One outcome.
fn one_carried_out<S: Space>(
    alloc: Global,
    site: &Site,
    space: &mut S,
    heap: &mut Heap<S>,
    callers: &mut Callers<S>,
    outcome: Outcome<S>,
) -> Result<Outcomes<S>, SpaceFault>
    requires { MayCarryOut site.now (S.sets space.old) heap.old callers.old (outcome ∷ []) }
    ensures extends { Extends (S.sets space.old) (S.sets space.new) }
    ensures carried { IfOk result (λ r. AreCarriedOut site.now.program.now (outcome_carried_out site.now.program.now) (S.sets space.old) (S.sets space.new) heap.old heap.new callers.old callers.new (outcome ∷ []) r.items.items) }
{
    match outcome {
        Outcome::Native { group, method } => {
            native_carried_out(alloc, site, space, heap, callers, group, method)
        }
        Outcome::Begin { group, class } => {
            begin(alloc, site.program, space, heap, callers, group, class)
        }
        other => {
            let same = only(alloc, other)?;
            Ok(same)
        }
    }
}

/// Outcomes with native methods and beginnings carried out (JVMS 5.5). Heap and tree may grow, and change at no configuration
/// that comes to none of them. The only refusal is want of memory, after which heap and tree are given up.
pub(crate) fn carried_out<S: Space>(
    alloc: Global,
    site: &Site,
    space: &mut S,
    heap: &mut Heap<S>,
    callers: &mut Callers<S>,
    outcomes: Outcomes<S>,
) -> Result<Outcomes<S>, SpaceFault>
    requires { MayCarryOut site.now (S.sets space.old) heap.old callers.old outcomes.items.items }
    ensures extends { Extends (S.sets space.old) (S.sets space.new) }
    ensures carried { IfOk result (λ r. AreCarriedOut site.now.program.now (outcome_carried_out site.now.program.now) (S.sets space.old) (S.sets space.new) heap.old heap.new callers.old callers.new outcomes.items.items r.items.items) }
{
    if are_done(&outcomes) {
        return Ok(outcomes);
    }
    let mut made = Outcomes::new(alloc);
    for outcome in outcomes.items {
        let some = one_carried_out(alloc, site, space, heap, callers, outcome)?;
        made.append(some)?;
    }
    Ok(made)
}
