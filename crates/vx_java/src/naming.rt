//! The class that a name or a descriptor names (JVMS 4.2.1, 4.3.2, 5.3.3).

ghost use Rattle.std.specs.Prelude.{◌≡◌, ◌<◌, ◌+◌, ◌^◌, IfSome, length, option_map, unwrap_or};
ghost use Rattle.vx_java.specs.Ids.{as_class, HasClassNumbers};
ghost use Rattle.vx_link.specs.ClassNames.{class_named, class_of_name, class_of_type, core_class, element_of_base, object_class, primitive_element};
ghost use Rattle.vx_link.specs.Parts.{class_count};
ghost use Rattle.vx_link.specs.Signature.{class_in};

use vx_desc::{Base, JavaType, field_type};
use vx_link::Program;
use vx_pool::is_array;
use vx_value::ClassId;

/// The elements of arrays that are no classes: the primitive types.
const PRIMITIVE_ELEMENTS: u32 = 8;

fn place_of_class(program: &Program, name: &[u8]) -> Option<usize>
    ensures value { result ≡ class_of_name program.now name.now }
    ensures within { IfSome result (λ place. place < class_count program.now) }
{
    program.classes.place_of(name)
}

/// The class of a name, found by the hash of the name.
pub fn class_of_name(program: &Program, name: &[u8]) -> Option<ClassId>
    requires { HasClassNumbers program.now }
    ensures { result ≡ option_map as_class (class_of_name program.now name.now) }
{
    match place_of_class(program, name) {
        Some(place) => Some(ClassId(place as u32)),
        None => None,
    }
}

/// The core class of a name, or class 0 where it isn't there.
pub fn core_class(program: &Program, name: &[u8]) -> ClassId
    requires { HasClassNumbers program.now }
    ensures { result.0 ≡ unwrap_or (class_of_name program.now name.now) 0 }
{
    class_of_name(program, name).unwrap_or(ClassId(0))
}

/// The place of the core class Object, or 0 where it isn't there.
pub fn object_class(program: &Program) -> usize
    ensures { result ≡ object_class program.now }
{
    place_of_class(program, b"java/lang/Object").unwrap_or(0)
}

/// The core class Object, or class 0 where it isn't there.
pub fn object_id(program: &Program) -> ClassId
    requires { HasClassNumbers program.now }
    ensures { result.0 ≡ object_class program.now }
{
    match place_of_class(program, b"java/lang/Object") {
        Some(place) => ClassId(place as u32),
        None => ClassId(0),
    }
}

/// The place of the core interface Cloneable, or 0 where it isn't there.
pub fn cloneable_class(program: &Program) -> usize
    ensures { result ≡ core_class program.now "java/lang/Cloneable" }
{
    place_of_class(program, b"java/lang/Cloneable").unwrap_or(0)
}

/// The place of the core interface Serializable, or 0 where it isn't there.
pub fn serializable_class(program: &Program) -> usize
    ensures { result ≡ core_class program.now "java/io/Serializable" }
{
    place_of_class(program, b"java/io/Serializable").unwrap_or(0)
}

/// The name of the class that a type of a descriptor is, behind its `[`.
pub fn class_in<'a>(descriptor: &'a [u8], item: &JavaType) -> &'a [u8]
    ensures { result.now ≡ class_in descriptor.now item.now }
{
    let behind = descriptor.get(item.from as usize..).unwrap_or(&[]);
    let size = (item.end as usize).saturating_sub(item.from as usize);
    behind.get(..size).unwrap_or(behind)
}

fn primitive_element(base: Base) -> u32
    ensures value { result ≡ primitive_element base }
    ensures within { result < 9 }
{
    match base {
        Base::Bool => 0,
        Base::Byte => 1,
        Base::Char => 2,
        Base::Double => 3,
        Base::Float => 4,
        Base::Int => 5,
        Base::Long => 6,
        Base::Short => 7,
        Base::Class => PRIMITIVE_ELEMENTS,
    }
}

/// The number of what stands behind the `[` of a type among the elements of arrays.
fn element_of(program: &Program, descriptor: &[u8], item: &JavaType) -> Option<u32>
    requires { HasClassNumbers program.now }
    ensures value { result ≡ element_of_base program.now descriptor.now item.now item.now.base }
    ensures within { IfSome result (λ element. element < class_count program.now + 9) }
{
    if item.base != Base::Class {
        return Some(primitive_element(item.base));
    }
    match place_of_class(program, class_in(descriptor, item)) {
        Some(place) => Some(place as u32 + PRIMITIVE_ELEMENTS),
        None => None,
    }
}

/// The class of a type of a descriptor, or `None` where it isn't there and for a primitive type. It is found by the hash of its name.
pub fn class_of_type(program: &Program, descriptor: &[u8], item: &JavaType) -> Option<ClassId>
    requires { HasClassNumbers program.now }
    ensures { result ≡ option_map as_class (class_of_type program.now descriptor.now item.now) }
{
    if item.dimensions == 0 {
        return if item.base == Base::Class {
            class_of_name(program, class_in(descriptor, item))
        } else {
            None
        };
    }
    let classes = program.classes.len() as u32;
    match element_of(program, descriptor, item) {
        Some(element) => Some(ClassId(
            classes + (u32::from(item.dimensions) - 1) * (classes + PRIMITIVE_ELEMENTS) + element,
        )),
        None => None,
    }
}

/// The class of a class name or of the descriptor of an array, or `None` where it isn't there: an array class is there where
/// its element is. It is found by the hash of its name, and takes no memory.
pub fn class_named(program: &Program, name: &[u8]) -> Option<ClassId>
    requires classes { HasClassNumbers program.now }
    requires text { length name.now < 2 ^ 32 }
    ensures { result ≡ option_map as_class (class_named program.now name.now) }
{
    if !is_array(name) {
        return class_of_name(program, name);
    }
    match field_type(name) {
        Some(item) => class_of_type(program, name, &item),
        None => None,
    }
}
