//! The set of allowed configurations.

ghost use Rattle.std.specs.Prelude.{◌≡◌, ◌<◌, length, IfOk};
ghost use Rattle.vx_space.specs.Sets.{IsSet, Extends};
ghost use Rattle.vx_model.specs.Truth.{truth, all_true, any_true, NamesBelow, AllNamesBelow};
ghost use Rattle.vx_model.specs.Formula.{formulas};
ghost use Rattle.vx_model.specs.Models.{IsModel, is_allowed};

use crate::expr::{Expr, Form};
use crate::model::Model;
use vx_space::{Space, SpaceFault};

/// The configurations that a model allows: those that make each of its rules true. The space has as many options as the
/// model.
pub fn allowed<S: Space>(space: &mut S, model: &Model) -> Result<S::Id, SpaceFault>
    requires lawful { IsModel model.now }
    requires options { (S.sets space.old).options ≡ length model.now.options }
    ensures ok { IfOk result (λ id. IsSet (S.sets space.new) id (is_allowed model.now)) }
    ensures extends { Extends (S.sets space.old) (S.sets space.new) }
{
    all_true(space, model.rules.as_slice())
}

// The configurations that make each of these rules true.
#[cycle(truth)]
fn all_true<S: Space>(space: &mut S, rules: &[Expr]) -> Result<S::Id, SpaceFault>
    requires { AllNamesBelow (S.sets space.old).options (formulas rules.now) }
    ensures ok { IfOk result (λ id. IsSet (S.sets space.new) id (all_true (formulas rules.now))) }
    ensures extends { Extends (S.sets space.old) (S.sets space.new) }
{
    let mut set = space.always();
    for rule in rules {
        let held = truth(space, rule)?;
        set = space.and(set, held)?;
    }
    Ok(set)
}

// The configurations that make one of these rules true.
#[cycle(truth)]
fn any_true<S: Space>(space: &mut S, rules: &[Expr]) -> Result<S::Id, SpaceFault>
    requires { AllNamesBelow (S.sets space.old).options (formulas rules.now) }
    ensures ok { IfOk result (λ id. IsSet (S.sets space.new) id (any_true (formulas rules.now))) }
    ensures extends { Extends (S.sets space.old) (S.sets space.new) }
{
    let mut set = space.never();
    for rule in rules {
        let held = truth(space, rule)?;
        set = space.or(set, held)?;
    }
    Ok(set)
}

// The configurations that make a rule true.
#[cycle(truth)]
fn truth<S: Space>(space: &mut S, rule: &Expr) -> Result<S::Id, SpaceFault>
    requires { NamesBelow (S.sets space.old).options rule.now }
    ensures ok { IfOk result (λ id. IsSet (S.sets space.new) id (truth rule.now)) }
    ensures extends { Extends (S.sets space.old) (S.sets space.new) }
{
    match &rule.form {
        Form::True => Ok(space.always()),
        Form::False => Ok(space.never()),
        Form::Named(option) => space.option(*option),
        Form::Not(part) => {
            let held = truth(space, part)?;
            let always = space.always();
            space.minus(always, held)
        }
        Form::And(parts) => all_true(space, parts.as_slice()),
        Form::Or(parts) => any_true(space, parts.as_slice()),
        Form::Implies(premise, conclusion) => {
            let premise = truth(space, premise)?;
            let conclusion = truth(space, conclusion)?;
            let always = space.always();
            let off = space.minus(always, premise)?;
            space.or(off, conclusion)
        }
    }
}
