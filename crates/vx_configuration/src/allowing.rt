//! Whether a model allows a configuration, which is given by the values of its options.

ghost use Rattle.std.specs.Prelude.{◌≡◌, slice_get};
ghost use Rattle.vx_model.specs.Formula.{formulas};
ghost use Rattle.vx_model.specs.Models.{is_allowed};
ghost use Rattle.vx_model.specs.Truth.{all_true, any_true, truth};
ghost use Rattle.vx_space.specs.Config.{value_of};

use vx_model::{Expr, Form, Model};

/// The value of an option, or none past the end.
fn value(values: &[bool], option: u32) -> Option<bool>
    ensures { result ≡ slice_get values.now option }
{
    values.get(option as usize).copied()
}

/// Whether an option is on; one past the end is off.
fn is_on(values: &[bool], option: u32) -> bool
    ensures { result ≡ value_of values.now option }
{
    value(values, option).unwrap_or(false)
}

/// Whether a model allows the configuration of these values: whether each of its rules is true there. An option past the end is off.
/// Takes no memory.
pub fn is_allowed(model: &Model, values: &[bool]) -> bool
    ensures { result ≡ is_allowed model.now values.now }
{
    are_all_true(model.rules.as_slice(), values)
}

// Whether each of these rules is true.
#[cycle(is_true)]
fn are_all_true(rules: &[Expr], values: &[bool]) -> bool
    ensures { result ≡ all_true (formulas rules.now) values.now }
{
    let mut left = rules;
    while let [rule, others @ ..] = left {
        if !is_true(rule, values) {
            return false;
        }
        left = others;
    }
    true
}

// Whether one of these rules is true.
#[cycle(is_true)]
fn is_any_true(rules: &[Expr], values: &[bool]) -> bool
    ensures { result ≡ any_true (formulas rules.now) values.now }
{
    let mut left = rules;
    while let [rule, others @ ..] = left {
        if is_true(rule, values) {
            return true;
        }
        left = others;
    }
    false
}

// Whether a rule is true.
#[cycle(is_true)]
fn is_true(rule: &Expr, values: &[bool]) -> bool
    ensures { result ≡ truth rule.now values.now }
{
    match &rule.form {
        Form::True => true,
        Form::False => false,
        Form::Named(option) => is_on(values, *option),
        Form::Not(part) => !is_true(part, values),
        Form::And(parts) => are_all_true(parts.as_slice(), values),
        Form::Or(parts) => is_any_true(parts.as_slice(), values),
        Form::Implies(premise, conclusion) => {
            !is_true(premise, values) || is_true(conclusion, values)
        }
    }
}
