//! Stores of elements (JVMS 6.5 iastore, lastore, aastore, bastore, castore, sastore).

ghost use Rattle.std.specs.Prelude.{◌≡◌, ◌&&◌, ◌∷◌, IfOk, Some, drop, slice_get};
ghost use Rattle.vx_java.specs.Arrays.{at_index, element_sort, is_array_of, may_hold, may_store, store_element, value_kept};
ghost use Rattle.vx_java.specs.Checks.{is_object, is_of, non_null};
ghost use Rattle.vx_java.specs.Machine.{Go, Int, past, raise, when, with_cell};
ghost use Rattle.vx_plain.specs.Views.{state_of, value_of};
ghost use Rattle.vx_plain_arrays.specs.Elements.{kept};
ghost use Rattle.vx_plain_here.specs.Rows.{ComesTo, here_in};
ghost use Rattle.vx_value.specs.Arithmetic.{natural};

use crate::elements::{bad_index, is_wanted};
use crate::lengths::int_in;
use vx_java::arrays::component_of;
use vx_java::{Element, assignable};
use vx_numbers::narrow;
use vx_plain::{State, Value};
use vx_plain_casts::object_in;
use vx_plain_here::{Here, Made, is_within, natural};
use vx_references::arrays::sort_of;
use vx_value::Narrow;

fn kept(element: Element, value: Value) -> Value
    ensures { result ≡ kept element value }
{
    match (element, value) {
        (Element::Bytes, Value::Int(n)) => Value::Int(narrow(Narrow::Byte, n)),
        (Element::Chars, Value::Int(n)) => Value::Int(narrow(Narrow::Char, n)),
        (Element::Shorts, Value::Int(n)) => Value::Int(narrow(Narrow::Short, n)),
        _ => value,
    }
}

/// What a store keeps of a value.
#[tactic(auto, using(crate::proofs::Laws::kept_is))]
fn value_kept(element: Element, value: Value) -> Value
    ensures { value_of result ≡ value_kept element (value_of value) }
{
    kept(element, value)
}

/// Whether a reference may stand in an array of references.
fn may_hold(here: &Here<'_>, state: &State, array: u64, value: Value) -> bool
    ensures { let h = here_in here.now (state_of state.now) in result ≡ may_hold h array (value_of value) }
{
    match object_in(value) {
        Some(object) => assignable(
            here.program,
            state.class_of(object),
            component_of(here.program, state.class_of(array)),
        ),
        None => true,
    }
}

/// Whether a value may be stored in an array.
fn may_store(here: &Here<'_>, state: &State, element: Element, array: u64, value: Value) -> bool
    ensures { let h = here_in here.now (state_of state.now) in result ≡ may_store h element array (value_of value) }
{
    match element {
        Element::References => may_hold(here, state, array, value),
        Element::Ints => true,
        Element::Longs => true,
        Element::Bytes => true,
        Element::Chars => true,
        Element::Shorts => true,
    }
}

/// Writes an element, and goes on.
fn write_element(
    here: &Here<'_>,
    state: &mut State,
    element: Element,
    array: u64,
    index: usize,
    value: Value,
) -> Made
    ensures { let h = here_in here.now (state_of state.old) in IfOk result (ComesTo (Go (past h (with_cell h.state array index (value_kept element (value_of value))) (drop 3 h.state.top.operands))) h.state (state_of state.new)) }
{
    let kept = value_kept(element, value);
    state.write_cell(array, index, kept)?;
    here.go(state, 3)
}

/// Writes an element that the array may hold.
fn store_held(
    here: &Here<'_>,
    state: &mut State,
    element: Element,
    array: u64,
    index: i32,
    value: Value,
) -> Made
    ensures { let h = here_in here.now (state_of state.old) in IfOk result (ComesTo (when (may_store h element array (value_of value)) (Go (past h (with_cell h.state array (natural index) (value_kept element (value_of value))) (drop 3 h.state.top.operands))) (raise h "java/lang/ArrayStoreException")) h.state (state_of state.new)) }
{
    if may_store(here, state, element, array, value) {
        write_element(here, state, element, array, natural(index), value)
    } else {
        here.raise(state, b"java/lang/ArrayStoreException")
    }
}

/// Writes the element of an index, which may be outside.
fn store_within(
    here: &Here<'_>,
    state: &mut State,
    element: Element,
    array: u64,
    index: i32,
    value: Value,
) -> Made
    ensures { let h = here_in here.now (state_of state.old) in IfOk result (ComesTo (at_index h array index (when (may_store h element array (value_of value)) (Go (past h (with_cell h.state array (natural index) (value_kept element (value_of value))) (drop 3 h.state.top.operands))) (raise h "java/lang/ArrayStoreException"))) h.state (state_of state.new)) }
{
    if is_within(index, state.size_of(array)) {
        store_held(here, state, element, array, index, value)
    } else {
        bad_index(here, state, index)
    }
}

/// Writes an element of an array; null raises.
fn store_in(
    here: &Here<'_>,
    state: &mut State,
    element: Element,
    value: Value,
    index: i32,
    array: Value,
) -> Made
    ensures { let h = here_in here.now (state_of state.old) in IfOk result (ComesTo (non_null h (value_of array) (λ r. at_index h r index (when (may_store h element r (value_of value)) (Go (past h (with_cell h.state r (natural index) (value_kept element (value_of value))) (drop 3 h.state.top.operands))) (raise h "java/lang/ArrayStoreException")))) h.state (state_of state.new)) }
{
    match object_in(array) {
        Some(array) => store_within(here, state, element, array, index, value),
        None => here.raise(state, b"java/lang/NullPointerException"),
    }
}

/// Whether a store takes a value and an array.
fn may_take(here: &Here<'_>, state: &State, element: Element, value: Value, array: Value) -> bool
    ensures { let h = here_in here.now (state_of state.now) in result ≡ (is_of (element_sort element) (value_of value) && is_object h (is_array_of h.program element) (value_of array)) }
{
    value.is_of(sort_of(element)) && is_wanted(here, state, element, array)
}

/// A store of a value at an index of an array.
fn store_of(
    here: &Here<'_>,
    state: &mut State,
    element: Element,
    value: Value,
    index: i32,
    array: Value,
) -> Made
    ensures { let h = here_in here.now (state_of state.old) in IfOk result (ComesTo (store_element h element (value_of value ∷ Int index ∷ value_of array ∷ drop 3 h.state.top.operands)) h.state (state_of state.new)) }
{
    if may_take(here, state, element, value, array) {
        store_in(here, state, element, value, index, array)
    } else {
        here.illegal(state)
    }
}

/// A store where the value and the index are known.
fn store_at(here: &Here<'_>, state: &mut State, element: Element, value: Value, index: i32) -> Made
    requires value { Some (value_of value) ≡ slice_get (state_of state.old).top.operands 0 }
    requires index { Some (Int index) ≡ slice_get (state_of state.old).top.operands 1 }
    ensures { let h = here_in here.now (state_of state.old) in IfOk result (ComesTo (store_element h element h.state.top.operands) h.state (state_of state.new)) }
{
    match state.operand(2) {
        Some(array) => store_of(here, state, element, value, index, array),
        None => here.illegal(state),
    }
}

/// A store where the value and what stands under it are known.
fn store_by(
    here: &Here<'_>,
    state: &mut State,
    element: Element,
    value: Value,
    index: Value,
) -> Made
    requires value { Some (value_of value) ≡ slice_get (state_of state.old).top.operands 0 }
    requires index { Some (value_of index) ≡ slice_get (state_of state.old).top.operands 1 }
    ensures { let h = here_in here.now (state_of state.old) in IfOk result (ComesTo (store_element h element h.state.top.operands) h.state (state_of state.new)) }
{
    match int_in(index) {
        Some(index) => store_at(here, state, element, value, index),
        None => here.illegal(state),
    }
}

/// A store where the value is known.
fn store_over(here: &Here<'_>, state: &mut State, element: Element, value: Value) -> Made
    requires { Some (value_of value) ≡ slice_get (state_of state.old).top.operands 0 }
    ensures { let h = here_in here.now (state_of state.old) in IfOk result (ComesTo (store_element h element h.state.top.operands) h.state (state_of state.new)) }
{
    match state.operand(1) {
        Some(index) => store_by(here, state, element, value, index),
        None => here.illegal(state),
    }
}

/// iastore, lastore, aastore, bastore, castore, sastore.
pub fn store_element(here: &Here<'_>, state: &mut State, element: Element) -> Made
    ensures { let h = here_in here.now (state_of state.old) in IfOk result (ComesTo (store_element h element h.state.top.operands) h.state (state_of state.new)) }
{
    match state.operand(0) {
        Some(value) => store_over(here, state, element, value),
        None => here.illegal(state),
    }
}
