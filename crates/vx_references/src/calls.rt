//! What an instruction of a call and its program decide alone, the same at each configuration (JVMS 5.4.3.3, 5.4.3.4, 6.5).

ghost use Rattle.std.specs.Prelude.{◌≡◌, IfOk, option_map};
ghost use Rattle.vx_class.specs.Members.{STATIC};
ghost use Rattle.vx_java.specs.Calls.{member_text};
ghost use Rattle.vx_java.specs.Ids.{HasClassNumbers, as_class};
ghost use Rattle.vx_java.specs.Machine.{method_text};
ghost use Rattle.vx_java.specs.Named.{in_bytes};
ghost use Rattle.vx_link.specs.ClassNames.{class_named};
ghost use Rattle.vx_link.specs.Names.{member};
ghost use Rattle.vx_link.specs.Parts.{PRIVATE, has, method_at};
ghost use Rattle.vx_link.specs.Resolution.{is_array_clone, resolve_method};
ghost use Rattle.vx_references.specs.Calls.{IsMethodReference, found_in, may_call};

use bitflags::Flags;
use std::alloc::{AllocError, Global};
use vx_java::parts::{
    class_of_method, descriptor_of_method, flags_of_method, is_array, is_interface, name_of_class,
    name_of_method,
};
use vx_java::{MemberReference, Mode, member, resolve_method};
use vx_link::{AccessFlags, Program};
use vx_pool::Pool;
use vx_value::{ClassId, MethodId, Name};

/// What a program makes of the method that a call names.
#[derive(Clone, Copy)]
pub enum MethodReference {
    /// The class that is named, and the method that the name is resolved to, which the instruction may call.
    Found { named: ClassId, resolved: MethodId },
    /// The clone of the arrays of the class that is named, which is no method of the program.
    Clone(ClassId),
    /// The program has no class of the name.
    NoClass,
    /// The class has no such method.
    NoMethod,
    /// A Methodref names an interface or an InterfaceMethodref a class, or the instruction may not call the method: it is
    /// static where one of an object is wanted, or the other way round, or private by invokeinterface.
    WrongKind,
}

/// Whether a method is static.
pub fn is_static(program: &Program, method: MethodId) -> bool
    ensures { result ≡ has STATIC (method_at program.now method.0).flags }
{
    flags_of_method(program, method).contains(AccessFlags::STATIC)
}

/// Whether a method is private.
pub fn is_private(program: &Program, method: MethodId) -> bool
    ensures { result ≡ has PRIVATE (method_at program.now method.0).flags }
{
    flags_of_method(program, method).contains(AccessFlags::PRIVATE)
}

/// Whether a call may call a method.
fn may_call(program: &Program, mode: Mode, method: MethodId) -> bool
    ensures { result ≡ may_call mode (method_at program.now method.0) }
{
    match mode {
        Mode::Static => is_static(program, method),
        Mode::Interface => !(is_static(program, method) || is_private(program, method)),
        Mode::Virtual | Mode::Special => !is_static(program, method),
    }
}

/// Whether a name is that of the clone of an array (JVMS 6.4.4).
fn is_array_clone(program: &Program, named: ClassId, reference: &MemberReference<'_>) -> bool
    ensures { result ≡ is_array_clone program.now named.0 (in_bytes reference.now).name (in_bytes reference.now).descriptor }
{
    is_array(program, named)
        && (reference.name == b"clone".as_slice()
            && reference.descriptor == b"()Ljava/lang/Object;".as_slice())
}

/// The method of a name in the class that is named.
fn found(
    program: &Program,
    named: ClassId,
    reference: &MemberReference<'_>,
    mode: Mode,
) -> MethodReference
    requires { HasClassNumbers program.now }
    ensures { result ≡ found_in program.now mode named (resolve_method program.now named.0 (in_bytes reference.now).name (in_bytes reference.now).descriptor) }
{
    let Some(resolved) = resolve_method(program, named, reference.name, reference.descriptor) else {
        return MethodReference::NoMethod;
    };
    if !may_call(program, mode, resolved) {
        return MethodReference::WrongKind;
    }
    MethodReference::Found { named, resolved }
}

/// The method that a call names by an entry of a pool, where `owner` is the class that the entry names: a Methodref names a class,
/// an InterfaceMethodref an interface; the name is resolved in it; and the instruction may call the method.
pub fn method_reference(
    program: &Program,
    pool: &Pool,
    index: u16,
    owner: Option<ClassId>,
    mode: Mode,
) -> MethodReference
    requires classes { HasClassNumbers program.now }
    requires owner { owner ≡ option_map as_class (class_named program.now (member pool.now index).class) }
    ensures { IsMethodReference program.now pool.now index mode result }
{
    let reference = member(pool, index);
    let Some(named) = owner else {
        return MethodReference::NoClass;
    };
    if reference.by_interface != is_interface(program, named) {
        return MethodReference::WrongKind;
    }
    if !is_array_clone(program, named, &reference) {
        return found(program, named, &reference, mode);
    }
    match mode {
        Mode::Static => MethodReference::WrongKind,
        Mode::Virtual | Mode::Special | Mode::Interface => MethodReference::Clone(named),
    }
}

/// The class, the name and the descriptor of a method that an instruction names, as `CLASS.NAMEDESC`.
pub fn member_text(alloc: Global, named: &MemberReference<'_>) -> Result<Name, AllocError>
    ensures { IfOk result (λ text. text ≡ member_text (in_bytes named.now)) }
{
    let mut text = Vec::from_slice(alloc, named.class)?;
    text.extend_from_slice(b".")?;
    text.extend_from_slice(named.name)?;
    text.extend_from_slice(named.descriptor)?;
    Ok(Name::from_vec(text))
}

/// The class, the name and the descriptor of a method, as `CLASS.NAMEDESC`.
pub fn method_name(alloc: Global, program: &Program, method: MethodId) -> Result<Name, AllocError>
    ensures { IfOk result (λ name. name ≡ method_text program.now (method_at program.now method.0)) }
{
    let mut text = Vec::new(alloc);
    text.extend_from_slice(name_of_class(program, class_of_method(program, method)))?;
    text.extend_from_slice(b".")?;
    text.extend_from_slice(name_of_method(program, method))?;
    text.extend_from_slice(descriptor_of_method(program, method))?;
    Ok(Name::from_vec(text))
}
