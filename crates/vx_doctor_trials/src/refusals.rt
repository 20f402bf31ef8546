//! Refusals of models and class files in words, and how many classes of which version there are, worked out by hand.

use crate::programs::folder;
use std::alloc::Global;
use std::test::Fail;
use vx_reasons::Form;
use vx_refusals::{put_class_refusal, put_model_refusal, put_versions};

const MODEL: &[u8] = b"option A
option B
rule A and not B-1 && \"B\" <-> A
";

const MODEL_REFUSAL: &[u8] = b"line 3: rule A and not B-1 && \"B\" <-> A
reason 4: the rule is no expression of ->, |, &, !, brackets and names, or nests deeper than 256
slip: && is written &
slip: and is written &
slip: not is written !
slip: A <-> B is written (A -> B) & (B -> A)
slip: names stand without quotes
slip: a name has no -; take _
";

fn is_model_told(alloc: Global) -> Result<bool, Fail> {
    let mut text = Vec::new(alloc);
    put_model_refusal(&mut text, Form::Model, MODEL, 3, 4)?;
    Ok(text.as_slice() == MODEL_REFUSAL)
}

const DIMACS: &[u8] = b"p cnf 2 1
1 -2 && 0
";

const DIMACS_REFUSAL: &[u8] = b"line 2: 1 -2 && 0
reason 8: a word is neither 0 nor a variable of the header, with or without a minus
";

fn is_dimacs_told(alloc: Global) -> Result<bool, Fail> {
    let mut text = Vec::new(alloc);
    put_model_refusal(&mut text, Form::Dimacs, DIMACS, 2, 8)?;
    Ok(text.as_slice() == DIMACS_REFUSAL)
}

/// The first bytes of a class that `javac` of Java 17 has compiled.
const LATER: &[u8] = b"\xca\xfe\xba\xbe\0\0\0\x3d";

const LATER_REFUSAL: &[u8] = b"class file shop/My\\20Main.class at byte 6
reason 2: the major version is not from 45 to 52, which is Java 8
compiled for Java 17: compile with javac --release 8
";

fn is_class_told(alloc: Global) -> Result<bool, Fail> {
    let mut text = Vec::new(alloc);
    put_class_refusal(&mut text, b"shop/My Main.class", LATER, 6, 2)?;
    Ok(text.as_slice() == LATER_REFUSAL)
}

/// A class of version 51, which is that of sources that name none.
const SOURCE: &[u8] = b"class 0021 Main java/lang/Object
";

fn are_versions_told(alloc: Global) -> Result<bool, Fail> {
    let classes = folder(alloc, SOURCE)?;
    let mut text = Vec::new(alloc);
    put_versions(&mut text, classes.as_slice())?;
    Ok(text.as_slice() == b"classes 1\nversion 51 1\n".as_slice())
}

#[test]
fn a_bad_line_is_told_with_its_slips(rt: HostRuntime) -> Result<(), Fail> {
    assert!(rt; is_model_told(rt.alloc())?);
    Ok(())
}

#[test]
fn a_line_of_dimacs_has_no_slips(rt: HostRuntime) -> Result<(), Fail> {
    assert!(rt; is_dimacs_told(rt.alloc())?);
    Ok(())
}

#[test]
fn a_class_of_a_later_java_is_told_with_how_it_is_compiled(rt: HostRuntime) -> Result<(), Fail> {
    assert!(rt; is_class_told(rt.alloc())?);
    Ok(())
}

#[test]
fn classes_are_counted_by_their_versions(rt: HostRuntime) -> Result<(), Fail> {
    assert!(rt; are_versions_told(rt.alloc())?);
    Ok(())
}
