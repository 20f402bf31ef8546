//! Selection of methods (JVMS 6.5 invokevirtual, invokeinterface, invokespecial, Java SE 8).

ghost use Rattle.std.specs.Prelude.{◌≡◌};
ghost use Rattle.vx_java.specs.Ids.{HasClassNumbers};
ghost use Rattle.vx_java.specs.Selection.{class_of_receiver, found_or, select, select_special, selected_if_concrete};
ghost use Rattle.vx_java.specs.Specific.{passes};
ghost use Rattle.vx_link.specs.Hierarchy.{superclasses};
ghost use Rattle.vx_link.specs.Parts.{method_at};
ghost use Rattle.vx_link.specs.Resolution.{first_given, own_method, specific_methods};

use crate::methods::{Among, inherited_method};
use crate::naming::object_id;
use crate::parts::{descriptor_of_method, flags_of_method, is_array, is_interface, name_of_method};
use crate::selected::Selected;
use crate::specific::specific_method;
use bitflags::Flags;
use vx_link::{AccessFlags, Program, Sought};
use vx_value::{ClassId, MethodId};

/// A method, or `Abstract` where it has no body.
pub fn selected_if_concrete(program: &Program, method: MethodId) -> Selected
    ensures { result ≡ selected_if_concrete program.now method.0 }
{
    if flags_of_method(program, method).contains(AccessFlags::ABSTRACT) {
        return Selected::Abstract;
    }
    Selected::Method(method)
}

/// What is found from a class up, else in its superinterfaces.
fn found_from(program: &Program, among: Among, class: ClassId, method: MethodId) -> Selected
    ensures { result ≡ found_or program.now (first_given (own_method program.now (passes among) (method_at program.now method.0).name (method_at program.now method.0).descriptor) (superclasses program.now class.0)) (specific_methods program.now (method_at program.now method.0).name (method_at program.now method.0).descriptor class.0) }
{
    let sought = Sought::of(
        name_of_method(program, method),
        descriptor_of_method(program, method),
    );
    match inherited_method(program, among, &sought, class) {
        Some(found) => selected_if_concrete(program, found),
        None => specific_method(program, &sought, class),
    }
}

/// An array has the methods of Object.
fn class_of_receiver(program: &Program, class: ClassId) -> ClassId
    requires { HasClassNumbers program.now }
    ensures { result.0 ≡ class_of_receiver program.now class.0 }
{
    if is_array(program, class) {
        object_id(program)
    } else {
        class
    }
}

/// The method that a virtual or interface call of a resolved method selects at a receiver's class: a private one is itself selected;
/// another is the first inherited one of its name and descriptor from the class up, else the one maximally-specific superinterface
/// method that is not abstract. `Abstract` where there is none or it is abstract, `Conflict` where there are several.
pub fn select(program: &Program, receiver: ClassId, method: MethodId) -> Selected
    requires { HasClassNumbers program.now }
    ensures { result ≡ select program.now receiver.0 method.0 }
{
    if flags_of_method(program, method).contains(AccessFlags::PRIVATE) {
        return selected_if_concrete(program, method);
    }
    let class = class_of_receiver(program, receiver);
    found_from(program, Among::Inherited, class, method)
}

/// The method that `invokespecial` selects where its search begins at a class: at a class as a virtual call does, at an interface its
/// own method that is not static, a private one too.
pub fn select_special(program: &Program, from: ClassId, method: MethodId) -> Selected
    ensures { result ≡ select_special program.now from.0 method.0 }
{
    let among = if is_interface(program, from) {
        Among::Instance
    } else {
        Among::Inherited
    };
    found_from(program, among, from, method)
}
