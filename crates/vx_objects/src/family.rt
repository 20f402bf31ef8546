//! The instructions of objects.

ghost use Rattle.std.specs.Prelude.{◌≡◌};
ghost use Rattle.vx_objects.specs.Family.{is_of_objects};

use vx_java::Operation;

/// Whether it is an instruction of objects other than a call and a throw.
pub fn is_of_objects(operation: Operation) -> bool
    ensures { result ≡ is_of_objects operation }
{
    matches!(
        operation,
        Operation::New(_)
            | Operation::GetField(_)
            | Operation::PutField(_)
            | Operation::CheckCast(_)
            | Operation::InstanceOf(_)
            | Operation::Monitor
            | Operation::IfSame(_, _)
    )
}
