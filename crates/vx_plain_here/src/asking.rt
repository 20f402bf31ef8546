//! What an instruction asks of classes.

ghost use Rattle.std.specs.Prelude.{◌≡◌, unwrap_or};
ghost use Rattle.vx_java.specs.Checks.{is_instance_of};
ghost use Rattle.vx_link.specs.ClassNames.{class_of_name};
ghost use Rattle.vx_plain.specs.Views.{state_of, value_of};
ghost use Rattle.vx_plain_here.specs.Rows.{here_in};

use crate::here::Here;
use vx_java::{assignable, class_of_name};
use vx_plain::{State, Value};
use vx_value::ClassId;

impl<'a> Here<'a> {
    /// The core class of a name, found by the hash of the name.
    pub fn core(&self, name: &[u8]) -> ClassId
        ensures { result.0 ≡ unwrap_or (class_of_name self.now.program.now name.now) 0 }
    {
        class_of_name(self.program, name).unwrap_or(ClassId(0))
    }

    /// Whether a value is null, or an object of a class.
    pub fn is_instance(&self, state: &State, class: ClassId, value: Value) -> bool
        ensures { result ≡ is_instance_of (here_in self.now (state_of state.now)) class.0 (value_of value) }
    {
        match value {
            Value::Null => true,
            Value::Ref(object) => assignable(self.program, state.class_of(object), class),
            _ => false,
        }
    }
}
