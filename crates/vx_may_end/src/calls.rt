//! What a call lacks (JVMS 6.5 invokevirtual, invokespecial, invokestatic, invokeinterface).

ghost use Rattle.std.specs.Prelude.{◌≡◌, ◌++◌, ◌∷◌, ◌<◌, ◌^◌, ◌&&◌, ◌==◌, [], OnOk, flat_map, if◌then◌else◌, is_none, length, not, option_map};
ghost use Rattle.vx_desc.specs.Names.{is_init};
ghost use Rattle.vx_java.specs.Selection.{selected_if_concrete};
ghost use Rattle.vx_link.specs.Assignability.{assignable};
ghost use Rattle.vx_link.specs.ClassNames.{object_class};
ghost use Rattle.vx_link.specs.Hierarchy.{is_proper_superclass};
ghost use Rattle.vx_java.specs.Ids.{HasClassNumbers};
ghost use Rattle.vx_java.specs.Named.{in_bytes};
ghost use Rattle.vx_link.specs.Parts.{method_at};
ghost use Rattle.vx_link.specs.Resolution.{is_array_clone};
ghost use Rattle.vx_may_end.specs.Lacks.{of_call, of_class_there, of_initialisation, of_method_there, of_receiver, of_receivers, of_resolved, of_selected, special_selection, takes_arrays};

use crate::classes::put_initialisation;
use crate::lack::{CLASS, Lack, METHOD, NATIVE, When, put_lack, put_named};
use std::alloc::{AllocError, Global};
use vx_desc::is_init;
use vx_java::parts::{class_of_method, is_array, is_interface, superclass_of};
use vx_java::{
    MemberReference, Mode, Selected, assignable, class_named, is_above_arrays, is_superclass,
    object_id, resolve_method, select, select_special, selected_if_concrete,
};
use vx_link::Program;
use vx_references::{is_private, is_static, member_text, method_name};
use vx_value::{ClassId, MethodId};

/// Whether a method has neither code nor a native method of the machine.
fn is_missing(program: &Program, method: MethodId) -> bool
    ensures { result ≡ (is_none (method_at program.now method.0).code && ((method_at program.now method.0).native == 0)) }
{
    match program.method(method) {
        Some(method) => method.code.is_none() && method.native == 0,
        None => true,
    }
}

/// Puts what a method lacks that a call carries out.
fn put_selected(
    alloc: Global,
    out: &mut Vec<Lack>,
    program: &Program,
    when: When,
    selected: Selected,
) -> Result<(), AllocError>
    ensures { OnOk result (out.new.items ≡ out.old.items ++ of_selected program.now when selected) }
{
    let Selected::Method(method) = selected else {
        return Ok(());
    };
    if !is_missing(program, method) {
        return Ok(());
    }
    let what = method_name(alloc, program, method)?;
    put_lack(out, when, NATIVE, what)
}

/// Puts what a call lacks where an object of a class is its receiver.
fn put_receiver(
    alloc: Global,
    out: &mut Vec<Lack>,
    program: &Program,
    resolved: MethodId,
    class: ClassId,
) -> Result<(), AllocError>
    requires { HasClassNumbers program.now }
    ensures { OnOk result (out.new.items ≡ out.old.items ++ of_receiver program.now resolved.0 class.0) }
{
    put_selected(
        alloc,
        out,
        program,
        When::On(class),
        select(program, class, resolved),
    )
}

/// Whether an array may stand where a class is named.
fn takes_arrays(program: &Program, named: ClassId) -> bool
    requires { HasClassNumbers program.now }
    ensures { result ≡ takes_arrays program.now named.0 }
{
    is_array(program, named) || is_above_arrays(program, named)
}

/// Puts what a call lacks where an array is its receiver, which has the methods of Object.
fn put_arrays(
    alloc: Global,
    out: &mut Vec<Lack>,
    program: &Program,
    named: ClassId,
    resolved: MethodId,
) -> Result<(), AllocError>
    requires { HasClassNumbers program.now }
    ensures { OnOk result (out.new.items ≡ out.old.items ++ flat_map (of_receiver program.now resolved.0) (if takes_arrays program.now named.0 then object_class program.now ∷ [] else [])) }
{
    if !takes_arrays(program, named) {
        return Ok(());
    }
    put_receiver(alloc, out, program, resolved, object_id(program))
}

/// Puts what a call lacks where an object of a class is its receiver, if it may stand where a class is named.
fn put_assignable(
    alloc: Global,
    out: &mut Vec<Lack>,
    program: &Program,
    named: ClassId,
    resolved: MethodId,
    class: ClassId,
) -> Result<(), AllocError>
    requires { HasClassNumbers program.now }
    ensures { OnOk result (out.new.items ≡ out.old.items ++ flat_map (of_receiver program.now resolved.0) (if assignable program.now class.0 named.0 then class.0 ∷ [] else [])) }
{
    if !assignable(program, class, named) {
        return Ok(());
    }
    put_receiver(alloc, out, program, resolved, class)
}

/// Puts what a call lacks whose method is selected by the receiver.
fn put_receivers(
    alloc: Global,
    out: &mut Vec<Lack>,
    program: &Program,
    named: ClassId,
    resolved: MethodId,
) -> Result<(), AllocError>
    requires { HasClassNumbers program.now }
    ensures { OnOk result (out.new.items ≡ out.old.items ++ of_receivers program.now named.0 resolved.0) }
{
    put_arrays(alloc, out, program, named, resolved)?;
    for place in 0..program.classes.len() {
        put_assignable(alloc, out, program, named, resolved, ClassId(place as u32))?;
    }
    Ok(())
}

/// Whether the search of invokespecial begins at the direct superclass of the class in whose method it stands.
fn begins_above(
    program: &Program,
    current: ClassId,
    named: ClassId,
    reference: &MemberReference<'_>,
) -> bool
    ensures { result ≡ (not (is_init reference.now.name.now) && is_proper_superclass program.now named.0 current.0) }
{
    !is_init(reference.name)
        && (is_superclass(program, named.0 as usize, current) && named.0 != current.0)
}

/// The method that invokespecial selects (JVMS 6.5 invokespecial, Java SE 8).
fn special_selection(
    program: &Program,
    current: ClassId,
    reference: &MemberReference<'_>,
    named: ClassId,
    resolved: MethodId,
) -> Selected
    ensures { result ≡ special_selection program.now current.0 (in_bytes reference.now) named.0 resolved.0 }
{
    if reference.by_interface {
        return select_special(program, named, resolved);
    }
    if begins_above(program, current, named, reference) {
        let above = superclass_of(program, current).unwrap_or(ClassId(0));
        return select_special(program, above, resolved);
    }
    selected_if_concrete(program, resolved)
}

/// Puts what a call of a static method lacks, whose class is initialised.
fn put_static(
    alloc: Global,
    out: &mut Vec<Lack>,
    program: &Program,
    resolved: MethodId,
) -> Result<(), AllocError>
    requires { HasClassNumbers program.now }
    ensures { OnOk result (out.new.items ≡ out.old.items ++ (of_initialisation program.now (method_at program.now resolved.0).class.0 ++ of_selected program.now When.Always (selected_if_concrete program.now resolved.0))) }
{
    put_initialisation(alloc, out, program, class_of_method(program, resolved))?;
    put_selected(
        alloc,
        out,
        program,
        When::Always,
        selected_if_concrete(program, resolved),
    )
}

/// A call in a method of a class: the class that it names, and how it names the method.
#[derive(Clone, Copy)]
pub(crate) struct Call<'a> {
    pub current: ClassId,
    pub mode: Mode,
    pub reference: MemberReference<'a>,
}

/// Puts what a call lacks whose name is resolved to a method.
fn put_resolved(
    alloc: Global,
    out: &mut Vec<Lack>,
    program: &Program,
    call: &Call<'_>,
    named: ClassId,
    resolved: MethodId,
) -> Result<(), AllocError>
    requires { HasClassNumbers program.now }
    ensures { OnOk result (out.new.items ≡ out.old.items ++ of_resolved program.now call.now.current.0 call.now.mode (in_bytes call.now.reference) named.0 resolved.0) }
{
    let is_static = is_static(program, resolved);
    match call.mode {
        Mode::Static => {
            if is_static {
                put_static(alloc, out, program, resolved)
            } else {
                Ok(())
            }
        }
        Mode::Special => {
            if is_static {
                return Ok(());
            }
            let selected = special_selection(
                program,
                call.current,
                &call.reference,
                named,
                resolved,
            );
            put_selected(alloc, out, program, When::Always, selected)
        }
        Mode::Interface => {
            if is_static || is_private(program, resolved) {
                return Ok(());
            }
            put_receivers(alloc, out, program, named, resolved)
        }
        Mode::Virtual => {
            if is_static {
                return Ok(());
            }
            put_receivers(alloc, out, program, named, resolved)
        }
    }
}

/// Puts what a call lacks by the method that its name is resolved to, if there is one.
fn put_method_there(
    alloc: Global,
    out: &mut Vec<Lack>,
    program: &Program,
    call: &Call<'_>,
    named: ClassId,
    resolved: Option<MethodId>,
) -> Result<(), AllocError>
    requires { HasClassNumbers program.now }
    ensures { OnOk result (out.new.items ≡ out.old.items ++ of_method_there program.now call.now.current.0 call.now.mode (in_bytes call.now.reference) named.0 (option_map (λ m. m.0) resolved)) }
{
    match resolved {
        Some(resolved) => put_resolved(alloc, out, program, call, named, resolved),
        None => {
            let what = member_text(alloc, &call.reference)?;
            put_lack(out, When::Always, METHOD, what)
        }
    }
}

/// Whether a name is that of the clone of an array (JVMS 6.4.4).
fn is_array_clone(program: &Program, named: ClassId, reference: &MemberReference<'_>) -> bool
    ensures { result ≡ is_array_clone program.now named.0 reference.now.name.now reference.now.descriptor.now }
{
    is_array(program, named)
        && (reference.name == b"clone".as_slice()
            && reference.descriptor == b"()Ljava/lang/Object;".as_slice())
}

/// Puts what a call lacks whose class is there.
fn put_class_there(
    alloc: Global,
    out: &mut Vec<Lack>,
    program: &Program,
    call: &Call<'_>,
    named: ClassId,
) -> Result<(), AllocError>
    requires { HasClassNumbers program.now }
    ensures { OnOk result (out.new.items ≡ out.old.items ++ of_class_there program.now call.now.current.0 call.now.mode (in_bytes call.now.reference) named.0) }
{
    let reference = &call.reference;
    if reference.by_interface != is_interface(program, named) {
        return Ok(());
    }
    if is_array_clone(program, named, reference) {
        return Ok(());
    }
    let resolved = resolve_method(program, named, reference.name, reference.descriptor);
    put_method_there(alloc, out, program, call, named, resolved)
}

/// Puts what a call lacks.
pub(crate) fn put_call(
    alloc: Global,
    out: &mut Vec<Lack>,
    program: &Program,
    call: &Call<'_>,
) -> Result<(), AllocError>
    requires classes { HasClassNumbers program.now }
    requires few { length call.now.reference.class.now < 2 ^ 16 }
    ensures { OnOk result (out.new.items ≡ out.old.items ++ of_call program.now call.now.current.0 call.now.mode (in_bytes call.now.reference)) }
{
    match class_named(program, call.reference.class) {
        Some(named) => put_class_there(alloc, out, program, call, named),
        None => put_named(alloc, out, When::Always, CLASS, call.reference.class),
    }
}
