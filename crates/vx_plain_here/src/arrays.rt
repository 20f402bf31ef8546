//! What an instruction asks of arrays.

ghost use Rattle.std.specs.Prelude.{◌≡◌};
ghost use Rattle.vx_java.specs.Checks.{is_object};
ghost use Rattle.vx_link.specs.ClassNames.{is_array};
ghost use Rattle.vx_plain.specs.Views.{state_of, value_of};
ghost use Rattle.vx_plain_here.specs.Rows.{here_in};

use crate::here::Here;
use vx_java::parts::is_array;
use vx_plain::{State, Value};

impl<'a> Here<'a> {
    /// Whether a value is null, or any array.
    pub fn is_any_array(&self, state: &State, value: Value) -> bool
        ensures { let h = here_in self.now (state_of state.now) in result ≡ is_object h (is_array h.program) (value_of value) }
    {
        match value {
            Value::Null => true,
            Value::Ref(object) => is_array(self.program, state.class_of(object)),
            Value::Top => false,
            Value::Int(_) => false,
            Value::Long(_) => false,
        }
    }
}
