//! Rows of the format, with what they give.

use vx_model::{Expr, Form, Model, read_model};

/// Whether the first of three options has its name and its field's class.
fn are_options(model: &Model) -> bool {
    let Some(option) = model.options.get(0) else {
        return false;
    };
    match &option.place {
        Some(place) => {
            model.options.len() == 3
                && option.name.bytes() == b"A".as_slice()
                && place.class.bytes() == b"Main/Options".as_slice()
        }
        None => false,
    }
}

/// Whether a form is that of a conjunction or else an implication.
fn is_premise(form: &Form) -> bool {
    match form {
        Form::Or(parts) => {
            parts.len() == 2
                && matches!(&parts[0].form, Form::And(_))
                && matches!(&parts[1].form, Form::Implies(_, _))
        }
        _ => false,
    }
}

/// Whether a rule is an implication with that premise, of the second option.
fn is_rule(rule: &Expr) -> bool {
    match &rule.form {
        Form::Implies(premise, conclusion) => {
            matches!(&conclusion.form, Form::Named(1)) && is_premise(&premise.form)
        }
        _ => false,
    }
}

fn are_rules(model: &Model) -> bool {
    match model.rules.get(0) {
        Some(rule) => model.rules.len() == 2 && is_rule(rule),
        None => false,
    }
}

#[test]
fn reads_options_and_rules(rt: HostRuntime) {
    let text =
        b"# shop\n\noption A Main.Options A\r\n\toption  B\noption C\nrule !A & B | (C -> A) -> B\nrule true";
    let model = read_model(rt.alloc(), text).expect(&rt, "a model");
    assert!(rt; are_options(&model) && are_rules(&model));
}
