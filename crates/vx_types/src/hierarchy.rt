//! Superclasses of classes that are there.

ghost use Rattle.std.specs.Prelude.{◌≡◌};
ghost use Rattle.vx_link.specs.ClassNames.{object_class};
ghost use Rattle.vx_java.specs.Ids.{as_class, HasClassNumbers};
ghost use Rattle.vx_types.specs.Common.{first_above};

use vx_java::parts::superclass_of;
use vx_java::{is_superclass, object_id};
use vx_link::Program;
use vx_value::ClassId;

/// The class `java/lang/Object`, or class 0 where the program hasn't it.
pub fn object_class(program: &Program) -> ClassId
    requires { HasClassNumbers program.now }
    ensures { result ≡ as_class (object_class program.now) }
{
    object_id(program)
}

/// The first of a class and its superclasses that another class is or has above it.
pub fn first_above(program: &Program, class: ClassId, other: ClassId) -> Option<ClassId>
    ensures { result ≡ first_above program.now class.0 other.0 }
{
    let mut left = program.classes.len();
    let mut next = Some(class);
    while left > 0 {
        let Some(class) = next else {
            return None;
        };
        if is_superclass(program, class.0 as usize, other) {
            return Some(class);
        }
        next = superclass_of(program, class);
        left -= 1;
    }
    None
}
