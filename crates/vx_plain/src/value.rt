//! Values of local variables, operands and cells (JVMS 2.2).

ghost use Rattle.std.specs.Prelude.{◌≡◌};
ghost use Rattle.vx_java.specs.Checks.{is_of};
ghost use Rattle.vx_java.specs.Library.{number_in};
ghost use Rattle.vx_java.specs.Machine.{width};
ghost use Rattle.vx_java.specs.Objects.{int_of_bool};
ghost use Rattle.vx_plain.specs.Views.{value_of};

use vx_java::Sort;

/// A value. The text of a String or StringBuilder is none: it stands in its object.
#[derive(Clone, Copy, Debug, PartialEq, Eq)]
pub enum Value {
    /// No value: a local that is not set, or the second half of a long.
    Top,
    Int(i32),
    Long(i64),
    Null,
    /// The place of an object in the heap.
    Ref(u64),
}

impl Value {
    /// How many words it takes on the operand stack.
    pub fn width(self) -> usize
        ensures { result ≡ width (value_of self) }
    {
        match self {
            Value::Long(_) => 2,
            _ => 1,
        }
    }

    /// Whether it is of a sort.
    pub fn is_of(self, sort: Sort) -> bool
        ensures { result ≡ is_of sort (value_of self) }
    {
        match (sort, self) {
            (Sort::Int, Value::Int(_))
            | (Sort::Long, Value::Long(_))
            | (Sort::Reference, Value::Null | Value::Ref(_)) => true,
            _ => false,
        }
    }

    /// The int that it is, and 0 where it is none.
    pub fn number(self) -> i32
        ensures { result ≡ number_in (value_of self) }
    {
        match self {
            Value::Int(n) => n,
            _ => 0,
        }
    }

    /// The value of a truth.
    pub fn of_bool(truth: bool) -> Value
        ensures { value_of result ≡ int_of_bool truth }
    {
        if truth { Value::Int(1) } else { Value::Int(0) }
    }
}
