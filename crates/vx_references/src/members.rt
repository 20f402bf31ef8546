//! The members that instructions name.

ghost use Rattle.std.specs.Prelude.{◌≡◌};
ghost use Rattle.vx_java.specs.Named.{in_bytes};
ghost use Rattle.vx_link.specs.Names.{member};
ghost use Rattle.vx_link.specs.Parts.{class_at};

use vx_java::{MemberReference, member};
use vx_link::Program;
use vx_value::ClassId;

/// The member that an entry of the pool of a class names (JVMS 4.4.2).
pub fn named_member(program: &Program, class: ClassId, index: u16) -> MemberReference<'_>
    ensures { in_bytes result ≡ member (class_at program.now class.0).pool index }
{
    match program.class(class) {
        Some(class) => member(&class.pool, index),
        None => MemberReference {
            class: &[],
            name: &[],
            descriptor: &[],
            by_interface: false,
        },
    }
}
