//! What a call of a method on an object comes to in a program alone.

ghost use Rattle.std.specs.Prelude.{◌≡◌};
ghost use Rattle.vx_java.specs.Ids.{HasClassNumbers};
ghost use Rattle.vx_invoke.specs.Called.{accepts, begins_above, selected_by, selected_special};

use vx_java::parts::{is_array, superclass_of};
use vx_java::{
    Mode, Selected, assignable, is_superclass, select, select_special, selected_if_concrete,
};
use vx_link::Program;
use vx_value::{ClassId, MethodId};

/// A call of a method on an object, once its name is resolved.
#[derive(Clone, Copy)]
pub struct Target {
    pub mode: Mode,
    /// Whether an InterfaceMethodref names the method.
    pub by_interface: bool,
    /// Whether the method is a constructor.
    pub is_init: bool,
    /// The class that the instruction names.
    pub named: ClassId,
    /// The method that the name is resolved to.
    pub resolved: MethodId,
    /// The class of the method in which the instruction stands.
    pub current: ClassId,
}

/// Whether an object of a class may be the receiver: the named class, or any array where an array class is named; where an interface
/// is named any object.
pub(crate) fn accepts(program: &Program, target: &Target, class: ClassId) -> bool
    ensures { result ≡ accepts program.now target.now class.0 }
{
    if target.by_interface {
        return true;
    }
    if is_array(program, target.named) {
        return is_array(program, class);
    }
    assignable(program, class, target.named)
}

/// Whether invokespecial searches from the direct superclass of the current class: where the named class is a proper superclass of the
/// current one and the method is no constructor.
fn begins_above(program: &Program, target: &Target) -> bool
    ensures { result ≡ begins_above program.now target.now }
{
    !target.is_init
        && is_superclass(program, target.named.0 as usize, target.current)
        && target.named.0 != target.current.0
}

/// The method that invokespecial selects (JVMS 6.5 invokespecial, Java SE 8).
fn selected_special(program: &Program, target: &Target) -> Selected
    ensures { result ≡ selected_special program.now target.now }
{
    if target.by_interface {
        return select_special(program, target.named, target.resolved);
    }
    if begins_above(program, target) {
        let above = superclass_of(program, target.current).unwrap_or(ClassId(0));
        return select_special(program, above, target.resolved);
    }
    selected_if_concrete(program, target.resolved)
}

/// The method that a call selects on an object of a class.
pub(crate) fn selected(program: &Program, target: &Target, class: ClassId) -> Selected
    requires { HasClassNumbers program.now }
    ensures { result ≡ selected_by target.now.mode program.now target.now class.0 }
{
    match target.mode {
        Mode::Special => selected_special(program, target),
        Mode::Virtual | Mode::Static | Mode::Interface => select(program, class, target.resolved),
    }
}
