//! The parts of a program by their numbers. A number that the program doesn't have is that of a part without anything.

ghost use Rattle.std.specs.Prelude.{◌≡◌, ◌||◌, is_some, option_copied};
ghost use Rattle.vx_class.specs.Members.{ABSTRACT};
ghost use Rattle.vx_link.specs.ClassNames.{is_array};
ghost use Rattle.vx_link.specs.Parts.{class_at, field_at, has, is_interface, method_at};

use bitflags::Flags;
use vx_class::Code;
use vx_link::{AccessFlags, Program};
use vx_value::{ClassId, FieldId, MethodId};

/// Whether a number is that of an array class, and of no class of the program.
pub fn is_array(program: &Program, class: ClassId) -> bool
    ensures { result ≡ is_array program.now class.0 }
{
    class.0 as usize >= program.classes.len()
}

/// The superclass of a class.
pub fn superclass_of(program: &Program, class: ClassId) -> Option<ClassId>
    ensures { result ≡ (class_at program.now class.0).superclass }
{
    match program.class(class) {
        Some(class) => class.superclass,
        None => None,
    }
}

/// The direct superinterfaces of a class.
pub fn interfaces_of(program: &Program, class: ClassId) -> &[ClassId]
    ensures { result.now ≡ (class_at program.now class.0).interfaces }
{
    match program.class(class) {
        Some(class) => class.interfaces.as_slice(),
        None => &[],
    }
}

/// The fields that a class declares.
pub fn fields_of(program: &Program, class: ClassId) -> &[FieldId]
    ensures { result.now ≡ (class_at program.now class.0).fields }
{
    match program.class(class) {
        Some(class) => class.fields.as_slice(),
        None => &[],
    }
}

/// The descriptor of a field.
pub fn descriptor_of_field(program: &Program, field: FieldId) -> &[u8]
    ensures { result.now ≡ (field_at program.now field.0).descriptor }
{
    match program.field(field) {
        Some(field) => field.descriptor.bytes(),
        None => &[],
    }
}

/// The class that declares a field.
pub fn class_of_field(program: &Program, field: FieldId) -> ClassId
    ensures { result ≡ (field_at program.now field.0).class }
{
    match program.field(field) {
        Some(field) => field.class,
        None => ClassId(0),
    }
}

/// The cell of a field in the objects that have it.
pub fn cell_of(program: &Program, field: FieldId) -> u32
    ensures { result ≡ (field_at program.now field.0).cell }
{
    match program.field(field) {
        Some(field) => field.cell,
        None => 0,
    }
}

/// Whether a field is that of an option.
pub fn is_option_field(program: &Program, field: FieldId) -> bool
    ensures { result ≡ is_some (field_at program.now field.0).option }
{
    match program.field(field) {
        Some(field) => field.option.is_some(),
        None => false,
    }
}

/// Whether a class is an interface.
pub fn is_interface(program: &Program, class: ClassId) -> bool
    ensures { result ≡ is_interface program.now class.0 }
{
    match program.class(class) {
        Some(class) => class.flags.contains(AccessFlags::INTERFACE),
        None => false,
    }
}

/// Whether a class is abstract or an interface, so that it has no objects.
pub fn is_without_objects(program: &Program, class: ClassId) -> bool
    ensures { result ≡ (has ABSTRACT (class_at program.now class.0).flags || is_interface program.now class.0) }
{
    match program.class(class) {
        Some(class) => {
            class.flags.contains(AccessFlags::ABSTRACT)
                || class.flags.contains(AccessFlags::INTERFACE)
        }
        None => false,
    }
}

/// The method that initialises a class.
pub fn initialiser_of(program: &Program, class: ClassId) -> MethodId
    ensures { result ≡ (class_at program.now class.0).initialiser }
{
    match program.class(class) {
        Some(class) => class.initialiser,
        None => MethodId(0),
    }
}

/// Whether the class file of a class has a `<clinit>`.
pub fn has_initialiser(program: &Program, class: ClassId) -> bool
    ensures { result ≡ (class_at program.now class.0).own_initialiser }
{
    match program.class(class) {
        Some(class) => class.own_initialiser,
        None => false,
    }
}

/// The name of a class that is no array.
pub fn name_of_class(program: &Program, class: ClassId) -> &[u8]
    ensures { result.now ≡ (class_at program.now class.0).name }
{
    match program.class(class) {
        Some(class) => class.name.bytes(),
        None => &[],
    }
}

/// The class of a method.
pub fn class_of_method(program: &Program, method: MethodId) -> ClassId
    ensures { result ≡ (method_at program.now method.0).class }
{
    match program.method(method) {
        Some(method) => method.class,
        None => ClassId(0),
    }
}

/// The name of a method.
pub fn name_of_method(program: &Program, method: MethodId) -> &[u8]
    ensures { result.now ≡ (method_at program.now method.0).name }
{
    match program.method(method) {
        Some(method) => method.name.bytes(),
        None => &[],
    }
}

/// The descriptor of a method.
pub fn descriptor_of_method(program: &Program, method: MethodId) -> &[u8]
    ensures { result.now ≡ (method_at program.now method.0).descriptor }
{
    match program.method(method) {
        Some(method) => method.descriptor.bytes(),
        None => &[],
    }
}

/// The flags of a method.
pub fn flags_of_method(program: &Program, method: MethodId) -> AccessFlags
    ensures { result ≡ (method_at program.now method.0).flags }
{
    match program.method(method) {
        Some(method) => method.flags,
        None => AccessFlags(0),
    }
}

/// The code of a method, if it has any.
pub fn code_of(program: &Program, method: MethodId) -> Option<&Code>
    ensures { option_copied result ≡ (method_at program.now method.0).code }
{
    match program.method(method) {
        Some(method) => method.code.as_ref(),
        None => None,
    }
}

/// The number of a method in the table of native methods; 0 where it is none.
pub fn native_number(program: &Program, method: MethodId) -> u32
    ensures { result ≡ (method_at program.now method.0).native }
{
    match program.method(method) {
        Some(method) => method.native,
        None => 0,
    }
}

/// The methods that a class declares.
pub fn methods_of(program: &Program, class: ClassId) -> &[MethodId]
    ensures { result.now ≡ (class_at program.now class.0).methods }
{
    match program.class(class) {
        Some(class) => class.methods.as_slice(),
        None => &[],
    }
}
