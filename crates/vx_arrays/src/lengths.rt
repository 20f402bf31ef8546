//! What lengths raise that no array may have (JVMS 6.5 newarray, anewarray, multianewarray).

ghost use Rattle.std.specs.Prelude.{◌≡◌};
ghost use Rattle.vx_arrays.specs.Making.{IsRefusals, refused};
ghost use Rattle.vx_java.specs.Ids.{HasClassNumbers};

use vx_java::core_class;
use vx_link::Program;
use vx_references::lengths::{has_negative, is_large};
use vx_value::ClassId;

/// The classes of what lengths raise.
#[derive(Clone, Copy)]
pub(crate) struct Refusals {
    pub negative: ClassId,
    pub large: ClassId,
}

/// Those of a program.
pub(crate) fn refusals_of(program: &Program) -> Refusals
    requires { HasClassNumbers program.now }
    ensures { IsRefusals program.now result }
{
    Refusals {
        negative: core_class(program, b"java/lang/NegativeArraySizeException"),
        large: core_class(program, b"java/lang/OutOfMemoryError"),
    }
}

/// The class of what these lengths raise, the first dimension's first: a negative one anywhere, then one above the bound, or
/// more cells than the bound in all; `None` where there may be such an array.
pub(crate) fn refused(refusals: Refusals, lengths: &[i32]) -> Option<ClassId>
    ensures { result ≡ refused refusals lengths.now }
{
    if has_negative(lengths) {
        return Some(refusals.negative);
    }
    if is_large(lengths) {
        return Some(refusals.large);
    }
    None
}
