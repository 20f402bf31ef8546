//! Where a run enters a program: the method with which it begins, and the fields of the options.

ghost use Rattle.std.specs.Prelude.{◌≡◌, ◌<◌, ◌^◌, length, map, find, position, option_map, slice_get, IfOk, IfSome};
ghost use Rattle.std.specs.List.{range_with_len};
ghost use Rattle.vx_link.specs.Linked.{is_main_method, main_method, is_option, option_field};
ghost use Rattle.vx_linker.specs.Cells.{main_in};

use crate::judging::{MAIN, MAIN_DESCRIPTOR};
use std::alloc::{AllocError, Global};
use vx_link::{LinkedClass, LinkedField, LinkedMethod};
use vx_list::Items;
use vx_value::{FieldId, MethodId};

fn is_main_method(methods: &[LinkedMethod], number: MethodId) -> bool
    ensures { result ≡ is_main_method (slice_get methods.now number.0) }
{
    match methods.get(number.0 as usize) {
        Some(method) => {
            method.name.bytes() == MAIN && method.descriptor.bytes() == MAIN_DESCRIPTOR
        }
        None => false,
    }
}

fn main_among(methods: &[LinkedMethod], numbers: &[MethodId]) -> Option<MethodId>
    ensures { option_map (λ m. m.0) result ≡ find (λ m. is_main_method (slice_get methods.now m)) (map (λ m. m.0) numbers.now) }
{
    for number in numbers {
        if is_main_method(methods, *number) {
            return Some(*number);
        }
    }
    None
}

/// The number of `main` of a class, if it has the name.
fn main_in(methods: &[LinkedMethod], class: &LinkedClass, main: &[u8]) -> Option<MethodId>
    ensures { option_map (λ m. m.0) result ≡ main_in methods.now class.now main.now }
{
    if class.name.bytes() != main {
        return None;
    }
    main_among(methods, class.methods.as_slice())
}

/// The number of `main` of the named class, or 0 where there is none.
pub fn main_method(classes: &[LinkedClass], methods: &[LinkedMethod], main: &[u8]) -> MethodId
    ensures { result.0 ≡ main_method classes.now methods.now main.now }
{
    for class in classes {
        match main_in(methods, class, main) {
            Some(number) => return number,
            None => {}
        }
    }
    MethodId(0)
}

fn is_option(option: u32, field: &LinkedField) -> bool
    ensures { result ≡ is_option option field.now.option }
{
    match field.option {
        Some(number) => number == option,
        None => false,
    }
}

fn place_of_option(fields: &[LinkedField], option: u32) -> Option<usize>
    ensures place { result ≡ position (λ f. is_option option f.option) fields.now }
    ensures within { IfSome result (λ place. place < length fields.now) }
{
    fields.iter().position(|field| is_option(option, field))
}

/// The field of an option.
fn option_field(fields: &[LinkedField], option: u32) -> Option<FieldId>
    requires { length fields.now < 2 ^ 32 }
    ensures { result ≡ option_field fields.now option }
{
    match place_of_option(fields, option) {
        Some(place) => Some(FieldId(place as u32)),
        None => None,
    }
}

/// The fields of so many options.
pub fn option_fields(
    alloc: Global,
    fields: &[LinkedField],
    count: u32,
) -> Result<Items<Option<FieldId>>, AllocError>
    requires { length fields.now < 2 ^ 32 }
    ensures { IfOk result (λ options. options ≡ map (option_field fields.now) (range_with_len 0 count)) }
{
    let mut options = Vec::new(alloc);
    for option in 0..count {
        options.push(option_field(fields, option))?;
    }
    Ok(Items::of(options))
}
