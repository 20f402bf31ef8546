//! Rules as trees.

ghost use Rattle.std.specs.Prelude.{◌≡◌, IfOk, if◌then◌else◌};
ghost use Rattle.vx_model.specs.Formula as tree;
ghost use Rattle.vx_model.specs.Grammar.{conjunction, disjunction};

use std::alloc::{AllocFailed, Global};
use std::marker::Model;

/// A rule over options, which contracts see as a `Formula` of `specs/Formula.antt`.
#[cycle(expr)]
#[derive(Debug, Drop)]
pub struct Expr {
    pub form: Form,
}

/// The form of a rule. `Named` has the number of an option, and `And` and `Or` have at least two parts where the rule
/// was read from a text.
#[cycle(expr)]
#[derive(Debug, Drop)]
pub enum Form {
    True,
    False,
    Named(u32),
    Not(Box<Expr>),
    And(Vec<Expr>),
    Or(Vec<Expr>),
    /// The first is off, or the second holds.
    Implies(Box<Expr>, Box<Expr>),
}

impl Model for Expr {
    ghost use Rattle.vx_model.specs.Formula.{Formula};
    ghost use Rattle.vx_model.specs.FormulaCode.{formula_code};

    ghost Value = { Formula };

    ghost coded = { formula_code };

    ghost use Rattle.vx_model.specs.View.{formula};

    ghost view = { λ e. formula e.form };

    ghost use Rattle.vx_model.specs.Formula.{formula_size};

    ghost size = { formula_size };

    ghost use Rattle.vx_model.specs.ViewFalls.{depth_le-formula_size};

    ghost size_decreases = { λ a h. depth_le-formula_size a.form };
}

impl Expr {
    /// The rule that the option of a number is on.
    pub fn named(option: u32) -> Expr
        ensures { result ≡ tree.Named option }
    {
        Expr {
            form: Form::Named(option),
        }
    }

    /// The rule that always holds, or the one that never holds.
    pub fn constant(holds: bool) -> Expr
        ensures { result ≡ (if holds then tree.Always else tree.Never) }
    {
        Expr {
            form: if holds { Form::True } else { Form::False },
        }
    }

    /// The rule that holds where another does not.
    pub fn negated(alloc: Global, rule: Expr) -> Result<Expr, AllocFailed<Expr>>
        ensures { IfOk result (λ e. e ≡ tree.Not rule) }
    {
        Ok(Expr {
            form: Form::Not(Box::new(alloc, rule)?),
        })
    }

    /// The rule that the second holds wherever the first does.
    pub fn implied(
        alloc: Global,
        premise: Expr,
        conclusion: Expr,
    ) -> Result<Expr, AllocFailed<Expr>>
        ensures { IfOk result (λ e. e ≡ tree.Implies premise conclusion) }
    {
        let premise = Box::new(alloc, premise)?;
        let conclusion = Box::new(alloc, conclusion)?;
        Ok(Expr {
            form: Form::Implies(premise, conclusion),
        })
    }

    /// The rule that all of these hold. A single one stands by itself.
    pub fn all_of(mut rules: Vec<Expr>) -> Expr
        ensures { result ≡ conjunction rules.items }
    {
        if rules.len() < 2 {
            return match rules.pop() {
                Some(rule) => rule,
                None => Expr::constant(true),
            };
        }
        Expr {
            form: Form::And(rules),
        }
    }

    /// The rule that one of these holds. A single one stands by itself.
    pub fn any_of(mut rules: Vec<Expr>) -> Expr
        ensures { result ≡ disjunction rules.items }
    {
        if rules.len() < 2 {
            return match rules.pop() {
                Some(rule) => rule,
                None => Expr::constant(false),
            };
        }
        Expr {
            form: Form::Or(rules),
        }
    }
}
