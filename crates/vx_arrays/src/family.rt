//! The instructions of arrays.

ghost use Rattle.std.specs.Prelude.{◌≡◌};
ghost use Rattle.vx_arrays.specs.Family.{is_of_arrays};

use vx_java::Operation;

/// Whether it is an instruction of arrays.
pub fn is_of_arrays(operation: Operation) -> bool
    ensures { result ≡ is_of_arrays operation }
{
    matches!(
        operation,
        Operation::NewPrimitives(_)
            | Operation::NewReferences(_)
            | Operation::NewGrid(_, _)
            | Operation::LoadElement(_)
            | Operation::StoreElement(_)
            | Operation::Length
    )
}
