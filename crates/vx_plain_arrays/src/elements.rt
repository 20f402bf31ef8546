//! Elements of arrays: their sorts, and the arrays and places that instructions may take.

ghost use Rattle.std.specs.Fmt.{signed_decimal};
ghost use Rattle.std.specs.Prelude.{◌≡◌, IfOk};
ghost use Rattle.vx_java.specs.Arrays.{is_array_of};
ghost use Rattle.vx_java.specs.Checks.{is_object};
ghost use Rattle.vx_java.specs.Machine.{raise_with};
ghost use Rattle.vx_plain.specs.Views.{state_of, value_of};
ghost use Rattle.vx_plain_here.specs.Rows.{ComesTo, here_in};

use vx_java::Element;
use vx_plain::{State, Value};
use vx_plain_here::{Here, Made};
use vx_references::arrays::is_array_of;
use vx_units::decimal;

/// Whether a value is null, or an array that an instruction works on.
pub(crate) fn is_wanted(here: &Here<'_>, state: &State, element: Element, value: Value) -> bool
    ensures { let h = here_in here.now (state_of state.now) in result ≡ is_object h (is_array_of h.program element) (value_of value) }
{
    match value {
        Value::Null => true,
        Value::Ref(object) => is_array_of(here.program, element, state.class_of(object)),
        Value::Top => false,
        Value::Int(_) => false,
        Value::Long(_) => false,
    }
}

/// The exception of an index outside of an array, whose message is the index.
pub(crate) fn bad_index(here: &Here<'_>, state: &State, index: i32) -> Made
    ensures { let h = here_in here.now (state_of state.now) in IfOk result (ComesTo (raise_with h "java/lang/ArrayIndexOutOfBoundsException" (signed_decimal index)) h.state h.state) }
{
    let message = decimal(here.alloc, index)?;
    here.raise_with(state, b"java/lang/ArrayIndexOutOfBoundsException", message)
}
