//! Resolution of methods (JVMS 5.4.3.3 and 5.4.3.4, Java SE 8; no access checks).

ghost use Rattle.std.specs.Prelude.{◌≡◌, option_map};
ghost use Rattle.vx_java.specs.Ids.{as_method, HasClassNumbers};
ghost use Rattle.vx_link.specs.Hierarchy.{superinterfaces};
ghost use Rattle.vx_link.specs.Parts.{is_inherited};
ghost use Rattle.vx_link.specs.Resolution.{first_given, only, own_method, resolve_in_class, resolve_method, specific_methods};

use crate::methods::{Among, Declares, inherited_method, own_method};
use crate::naming::object_id;
use crate::parts::is_array;
use crate::questions::ask_superinterfaces;
use crate::selected::Selected;
use crate::specific::specific_method;
use vx_desc::is_init;
use vx_link::{Program, Sought};
use vx_value::{ClassId, MethodId};

fn only_specific(program: &Program, sought: &Sought, class: ClassId) -> Option<MethodId>
    ensures { result ≡ option_map as_method (only (specific_methods program.now sought.now.0 sought.now.1 class.0)) }
{
    match specific_method(program, sought, class) {
        Selected::Method(method) => Some(method),
        Selected::Abstract => None,
        Selected::Conflict => None,
    }
}

fn interface_method(program: &Program, sought: &Sought, class: ClassId) -> Option<MethodId>
    ensures { result ≡ option_map as_method (first_given (own_method program.now is_inherited sought.now.0 sought.now.1) (superinterfaces program.now class.0)) }
{
    let question = Declares { sought };
    match ask_superinterfaces(program, &question, class) {
        Some(method) => Some(MethodId(method)),
        None => None,
    }
}

fn resolve_in_class(program: &Program, sought: &Sought, class: ClassId) -> Option<MethodId>
    ensures { result ≡ option_map as_method (resolve_in_class program.now class.0 sought.now.0 sought.now.1) }
{
    if is_init(sought.name()) {
        return own_method(program, Among::All, sought, class);
    }
    if let Some(method) = inherited_method(program, Among::All, sought, class) {
        return Some(method);
    }
    if let Some(method) = only_specific(program, sought, class) {
        return Some(method);
    }
    interface_method(program, sought, class)
}

/// The method of a name and a descriptor that a class has: its own or its superclasses', then the one maximally-specific method of its
/// superinterfaces that is not abstract, then the first method there that is neither private nor static. An `<init>` is looked for in
/// the class alone. An array class has the methods of Object but no `<init>`; its `clone` is no method of the program.
pub fn resolve_method(
    program: &Program,
    class: ClassId,
    name: &[u8],
    descriptor: &[u8],
) -> Option<MethodId>
    requires { HasClassNumbers program.now }
    ensures { result ≡ option_map as_method (resolve_method program.now class.0 name.now descriptor.now) }
{
    let sought = Sought::of(name, descriptor);
    if !is_array(program, class) {
        return resolve_in_class(program, &sought, class);
    }
    if is_init(name) {
        return None;
    }
    resolve_in_class(program, &sought, object_id(program))
}
