//! Rows of the format, with what they give.

use vx_dimacs::read_dimacs;
use vx_model::{Form, Model};

/// Whether a model has so many options and rules, and at a place an option of this name.
fn has(model: &Model, options: usize, rules: usize, place: usize, name: &[u8]) -> bool {
    let is_named = match model.options.get(place) {
        Some(option) => option.name.bytes() == name,
        None => false,
    };
    is_named && model.options.len() == options && model.rules.len() == rules
}

/// Whether the first option has a field.
fn is_placed(model: &Model) -> bool {
    match model.options.get(0) {
        Some(option) => option.place.is_some(),
        None => false,
    }
}

/// Whether a rule is a clause of several literals.
fn is_clause(model: &Model, place: usize) -> bool {
    match model.rules.get(place) {
        Some(rule) => matches!(&rule.form, Form::Or(_)),
        None => false,
    }
}

/// The option that a rule is.
fn named(model: &Model, place: usize) -> Option<u32> {
    let rule = model.rules.get(place)?;
    match &rule.form {
        Form::Named(number) => Some(*number),
        _ => None,
    }
}

#[test]
fn reads_two_variables_and_a_clause(rt: HostRuntime) {
    let text = b"c 1 A Main A\nc 2 B\np cnf 2 1\n-1 2 0\n";
    let model = read_dimacs(rt.alloc(), text).expect(&rt, "a model");
    assert!(rt; has(&model, 2, 1, 0, b"A") && is_placed(&model) && is_clause(&model, 0));
}

#[test]
fn reads_the_forms_of_tools(rt: HostRuntime) {
    // Comments with names first, comments that are none, a name past the last variable, clauses over lines, no last
    // line feed.
    let text = b"c 1 ROOT\nc 2 CONFIG_A\nc 65 X\nc 3\nc made by a tool\np cnf 3 2\n1\n0 -2\n3 0";
    let model = read_dimacs(rt.alloc(), text).expect(&rt, "a model");
    assert!(rt; has(&model, 3, 2, 2, b"v3") && named(&model, 0) == Some(0));
}

#[test]
fn reads_empty_lines_and_comments_between_clauses(rt: HostRuntime) {
    let text =
        b"c 1 A\r\nc 2 two words\r\nc 2$ X\r\n\r\np cnf 2 2\r\n\r\n1 -2\r\nc between\r\n 0\r\n\t2 0\r\n\r\n";
    let model = read_dimacs(rt.alloc(), text).expect(&rt, "a model");
    assert!(rt; has(&model, 2, 2, 1, b"v2") && is_clause(&model, 0) && named(&model, 1) == Some(1));
}

#[test]
fn reads_64_variables_and_clauses_on_a_line(rt: HostRuntime) {
    let text = b"p cnf 64 3\n1 0 -2 0 3 64 0\n";
    let model = read_dimacs(rt.alloc(), text).expect(&rt, "a model");
    assert!(rt; has(&model, 64, 3, 63, b"v64"));
}
