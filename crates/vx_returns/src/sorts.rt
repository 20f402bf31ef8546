//! Sorts of values and of types.

ghost use Rattle.std.specs.Prelude.{◌≡◌};
ghost use Rattle.vx_java.specs.Returns.{agrees};

use vx_desc::JavaType;
use vx_java::Sort;
use vx_references::sort_of;

/// Whether a return of a sort, or of no value, agrees with the type of the method's result (JVMS 4.10.1.9).
pub fn agrees(sort: Option<Sort>, java_type: Option<JavaType>) -> bool
    ensures { result ≡ agrees sort java_type }
{
    match (sort, java_type) {
        (None, None) => true,
        (Some(sort), Some(java_type)) => sort_of(java_type) == Some(sort),
        _ => false,
    }
}
