//! How a stack form puts the values back that stand in its words.

ghost use Rattle.std.specs.Prelude.{◌≡◌};
ghost use Rattle.vx_stack.specs.Forms.{order_of};

use vx_java::Shuffle;

/// How the values in the upper words of a stack form, and those in the words under them, are put back.
#[derive(Clone, Copy, Debug, PartialEq, Eq)]
pub enum Order {
    /// None is put back.
    Dropped,
    /// The upper ones are put under the others.
    Swapped,
    /// All are put back, and the upper ones are put under them once more.
    Doubled,
}

/// How a stack form puts the values back (JVMS 6.5 pop, pop2, dup, dup_x1, dup_x2, dup2, dup2_x1, dup2_x2, swap).
pub fn order_of(form: Shuffle) -> Order
    ensures { result ≡ order_of form }
{
    match form {
        Shuffle::Pop | Shuffle::Pop2 => Order::Dropped,
        Shuffle::Swap => Order::Swapped,
        _ => Order::Doubled,
    }
}
