//! Calls (JVMS 6.5 invokevirtual, invokespecial, invokestatic, invokeinterface).

ghost use Rattle.std.specs.Prelude.{◌≡◌, ◌<◌, ◌^◌, ◌||◌, [], IfOk, if◌then◌else◌, length, map, reverse};
ghost use Rattle.vx_class.specs.Members.{STATIC};
ghost use Rattle.vx_java.specs.Checks.{same_bool};
ghost use Rattle.vx_java.specs.Ids.{HasClassNumbers};
ghost use Rattle.vx_java.specs.Named.{in_bytes};
ghost use Rattle.vx_link.specs.Names.{member};
ghost use Rattle.vx_link.specs.Parts.{PRIVATE, has, is_interface, method_at};
ghost use Rattle.vx_link.specs.Resolution.{is_array_clone};
ghost use Rattle.vx_link.specs.Signature.{signature};
ghost use Rattle.vx_types.specs.Rows.{arguments, call_instance, call_resolved, call_with, clone_array, invoke, on_class, pool_of, receiver, wanted_of, with_result};

use crate::fields::holder;
use crate::pool::{current_class, member_at};
use crate::wants::{computes_of, wanted_type};
use std::alloc::{AllocError, Global};
use vx_desc::{JavaType, is_init};
use vx_java::parts::{is_array, is_interface};
use vx_java::{MemberReference, Mode, class_named, resolve_method};
use vx_link::Program;
use vx_list::Items;
use vx_references::{is_private, is_static, signature};
use vx_types::{Row, Want, class_type, object_type, ref_of, type_of};
use vx_value::{ClassId, MethodId};

/// The receiver of `invokespecial`: of another name than `<init>` it is also of the class that has the call.
fn special_receiver(
    alloc: Global,
    program: &Program,
    method: MethodId,
    member: &MemberReference,
) -> Result<Want, AllocError>
    requires classes { HasClassNumbers program.now }
    requires class { length member.now.class.now < 2 ^ 16 }
    ensures { IfOk result (λ w. w ≡ receiver program.now method.0 Mode.Special (in_bytes member.now)) }
{
    if is_init(member.name) {
        return holder(alloc, program, member);
    }
    let named = ref_of(alloc, program, member.class)?;
    Ok(Want::FitsBoth(named, class_type(program, current_class(program, method))))
}

/// The receiver of a call.
fn receiver(
    alloc: Global,
    program: &Program,
    method: MethodId,
    mode: Mode,
    member: &MemberReference,
) -> Result<Want, AllocError>
    requires classes { HasClassNumbers program.now }
    requires class { length member.now.class.now < 2 ^ 16 }
    ensures { IfOk result (λ w. w ≡ receiver program.now method.0 mode (in_bytes member.now)) }
{
    match mode {
        Mode::Special => special_receiver(alloc, program, method, member),
        _ => holder(alloc, program, member),
    }
}

/// What a value of a type in a descriptor has to be.
pub fn wanted_of(
    alloc: Global,
    program: &Program,
    descriptor: &[u8],
    item: &JavaType,
) -> Result<Want, AllocError>
    requires { HasClassNumbers program.now }
    ensures { IfOk result (λ w. w ≡ wanted_of program.now descriptor.now item.now) }
{
    let found = type_of(alloc, program, descriptor, item)?;
    Ok(wanted_type(alloc, found))
}

/// Values of these types, the last one on top.
fn values_of(
    alloc: Global,
    program: &Program,
    descriptor: &[u8],
    items: &[JavaType],
) -> Result<Vec<Want>, AllocError>
    requires { HasClassNumbers program.now }
    ensures { IfOk result (λ wants. wants.items ≡ reverse (map (wanted_of program.now descriptor.now) items.now)) }
{
    let mut wants = Vec::new(alloc);
    for item in items {
        wants.push(wanted_of(alloc, program, descriptor, item)?)?;
    }
    wants.reverse();
    Ok(wants)
}

/// The arguments of a call, the last one on top, and the type of its result.
fn arguments(
    alloc: Global,
    program: &Program,
    descriptor: &[u8],
) -> Result<(Vec<Want>, Option<JavaType>), AllocError>
    requires classes { HasClassNumbers program.now }
    requires few { length descriptor.now < 2 ^ 16 }
    ensures arguments { IfOk result (λ parts. parts.0.items ≡ reverse (map (wanted_of program.now descriptor.now) (signature descriptor.now).arguments)) }
    ensures given { IfOk result (λ parts. parts.1 ≡ (signature descriptor.now).result) }
{
    let signature = signature(alloc, descriptor)?;
    let wants = values_of(alloc, program, descriptor, signature.arguments.as_slice())?;
    Ok((wants, signature.result))
}

/// Takes what is wanted, and gives what a type of a descriptor says; with a float or a double the run ends before it is used.
fn with_result(
    alloc: Global,
    program: &Program,
    descriptor: &[u8],
    wants: Vec<Want>,
    item: Option<JavaType>,
) -> Result<Row, AllocError>
    requires { HasClassNumbers program.now }
    ensures { IfOk result (λ row. row ≡ with_result program.now descriptor.now wants.items item) }
{
    let Some(item) = item else {
        return Ok(Row::Takes(Items::of(wants), None));
    };
    match type_of(alloc, program, descriptor, &item)? {
        Some(given) => Ok(computes_of(wants, given)),
        None => Ok(Row::Leaves(Items::of(wants))),
    }
}

fn call_static(
    alloc: Global,
    program: &Program,
    member: &MemberReference,
) -> Result<Row, AllocError>
    requires classes { HasClassNumbers program.now }
    requires typed { length member.now.descriptor.now < 2 ^ 16 }
    ensures { IfOk result (λ row. row ≡ call_with program.now (in_bytes member.now) []) }
{
    let (wants, given) = arguments(alloc, program, member.descriptor)?;
    with_result(alloc, program, member.descriptor, wants, given)
}

fn call_instance(
    alloc: Global,
    program: &Program,
    method: MethodId,
    mode: Mode,
    member: &MemberReference,
) -> Result<Row, AllocError>
    requires classes { HasClassNumbers program.now }
    requires class { length member.now.class.now < 2 ^ 16 }
    requires typed { length member.now.descriptor.now < 2 ^ 16 }
    ensures { IfOk result (λ row. row ≡ call_instance program.now method.0 mode (in_bytes member.now)) }
{
    let (mut wants, given) = arguments(alloc, program, member.descriptor)?;
    wants.push(receiver(alloc, program, method, mode, member)?)?;
    with_result(alloc, program, member.descriptor, wants, given)
}

/// Whether a method is static or private, so that `invokeinterface` cannot call it.
fn is_static_or_private(program: &Program, method: MethodId) -> bool
    ensures { result ≡ (has STATIC (method_at program.now method.0).flags || has PRIVATE (method_at program.now method.0).flags) }
{
    is_static(program, method) || is_private(program, method)
}

/// A call with an object, unless it ends the run.
fn call_unless(
    alloc: Global,
    program: &Program,
    method: MethodId,
    mode: Mode,
    member: &MemberReference,
    ends: bool,
) -> Result<Row, AllocError>
    requires classes { HasClassNumbers program.now }
    requires class { length member.now.class.now < 2 ^ 16 }
    requires typed { length member.now.descriptor.now < 2 ^ 16 }
    ensures { IfOk result (λ row. row ≡ (if ends then Row.Ends else call_instance program.now method.0 mode (in_bytes member.now))) }
{
    if ends {
        return Ok(Row::Ends);
    }
    call_instance(alloc, program, method, mode, member)
}

/// A call of a method that is there: static against instance, or a private method by `invokeinterface`.
fn call_resolved(
    alloc: Global,
    program: &Program,
    method: MethodId,
    mode: Mode,
    member: &MemberReference,
    resolved: MethodId,
) -> Result<Row, AllocError>
    requires classes { HasClassNumbers program.now }
    requires class { length member.now.class.now < 2 ^ 16 }
    requires typed { length member.now.descriptor.now < 2 ^ 16 }
    ensures { IfOk result (λ row. row ≡ call_resolved program.now method.0 mode (in_bytes member.now) resolved.0) }
{
    match mode {
        Mode::Static => {
            if is_static(program, resolved) {
                call_static(alloc, program, member)
            } else {
                Ok(Row::Ends)
            }
        }
        Mode::Interface => {
            let ends = is_static_or_private(program, resolved);
            call_unless(alloc, program, method, Mode::Interface, member, ends)
        }
        Mode::Virtual => {
            let ends = is_static(program, resolved);
            call_unless(alloc, program, method, Mode::Virtual, member, ends)
        }
        Mode::Special => {
            let ends = is_static(program, resolved);
            call_unless(alloc, program, method, Mode::Special, member, ends)
        }
    }
}

/// The clone of an array.
fn clone_array(
    alloc: Global,
    program: &Program,
    method: MethodId,
    mode: Mode,
    member: &MemberReference,
) -> Result<Row, AllocError>
    requires classes { HasClassNumbers program.now }
    requires class { length member.now.class.now < 2 ^ 16 }
    ensures { IfOk result (λ row. row ≡ clone_array program.now method.0 mode (in_bytes member.now)) }
{
    match mode {
        Mode::Static => Ok(Row::Ends),
        _ => {
            let mut wants = Vec::new(alloc);
            wants.push(receiver(alloc, program, method, mode, member)?)?;
            Ok(computes_of(wants, object_type(program)))
        }
    }
}

/// The name and the descriptor of the clone of an array (JVMS 6.5 invokevirtual).
const CLONE: &[u8] = b"clone";

const CLONE_DESCRIPTOR: &[u8] = b"()Ljava/lang/Object;";

/// Whether a member of a class is the clone of an array.
fn is_array_clone(program: &Program, named: ClassId, member: &MemberReference) -> bool
    ensures { result ≡ is_array_clone program.now named.0 member.now.name.now member.now.descriptor.now }
{
    is_array(program, named) && (member.name == CLONE && member.descriptor == CLONE_DESCRIPTOR)
}

fn on_class(
    alloc: Global,
    program: &Program,
    method: MethodId,
    mode: Mode,
    member: &MemberReference,
    named: ClassId,
) -> Result<Row, AllocError>
    requires classes { HasClassNumbers program.now }
    requires class { length member.now.class.now < 2 ^ 16 }
    requires typed { length member.now.descriptor.now < 2 ^ 16 }
    ensures { IfOk result (λ row. row ≡ on_class program.now method.0 mode (in_bytes member.now) named.0) }
{
    if is_array_clone(program, named, member) {
        return clone_array(alloc, program, method, mode, member);
    }
    match resolve_method(program, named, member.name, member.descriptor) {
        Some(resolved) => call_resolved(alloc, program, method, mode, member, resolved),
        None => Ok(Row::Ends),
    }
}

/// Whether a member is named as its class wants it: by an InterfaceMethodref where that is an interface.
fn is_of_kind(program: &Program, member: &MemberReference, named: ClassId) -> bool
    ensures { result ≡ same_bool member.now.by_interface (is_interface program.now named.0) }
{
    if member.by_interface {
        is_interface(program, named)
    } else {
        !is_interface(program, named)
    }
}

/// What a call needs and gives. A class or a method that isn't there, and one of another kind than the call has, leave nothing to need.
pub fn invoke(
    alloc: Global,
    program: &Program,
    method: MethodId,
    mode: Mode,
    index: u16,
) -> Result<Row, AllocError>
    requires { HasClassNumbers program.now }
    ensures { IfOk result (λ row. row ≡ invoke program.now method.0 mode (member (pool_of program.now method.0) index)) }
{
    let member = member_at(program, method, index);
    let Some(named) = class_named(program, member.class) else {
        return Ok(Row::Ends);
    };
    if !is_of_kind(program, &member, named) {
        return Ok(Row::Ends);
    }
    on_class(alloc, program, method, mode, &member, named)
}
