//! Methods by their names and descriptors, in classes and in superinterfaces.

ghost use Rattle.std.specs.Prelude.{◌≡◌, find, option_map};
ghost use Rattle.vx_java.specs.Ids.{as_method};
ghost use Rattle.vx_java.specs.MemberNumbers.{is_method, numbers_between};
ghost use Rattle.vx_java.specs.Specific.{passes};
ghost use Rattle.vx_link.specs.Hierarchy.{superclasses};
ghost use Rattle.vx_link.specs.Parts.{is_inherited, method_at};
ghost use Rattle.vx_link.specs.Resolution.{first_given, own_method};

use crate::between::first_between;
use crate::parts::{flags_of_method, methods_of, superclass_of};
use crate::questions::Question;
use bitflags::Flags;
use vx_link::{AccessFlags, Program, Sought};
use vx_value::{ClassId, MethodId};

/// The methods that a search takes.
#[derive(Clone, Copy)]
pub enum Among {
    All,
    /// Those that are neither private nor static.
    Inherited,
    /// Those that are not static.
    Instance,
}

fn passes(program: &Program, among: Among, method: MethodId) -> bool
    ensures { result ≡ passes among (method_at program.now method.0) }
{
    let flags = flags_of_method(program, method);
    match among {
        Among::All => true,
        Among::Inherited => {
            !flags.contains(AccessFlags::PRIVATE) && !flags.contains(AccessFlags::STATIC)
        }
        Among::Instance => !flags.contains(AccessFlags::STATIC),
    }
}

/// The first method from a number on through another that a search takes.
fn method_between(
    program: &Program,
    among: Among,
    sought: &Sought,
    mut from: u32,
    last: u32,
) -> Option<MethodId>
    ensures { result ≡ option_map as_method (find (is_method program.now (passes among) sought.now.0 sought.now.1) (numbers_between from last)) }
{
    loop {
        let number = first_between(&program.methods, sought, from, last)?;
        if passes(program, among, MethodId(number)) {
            return Some(MethodId(number));
        }
        from = number.checked_add(1)?;
    }
}

/// The method that a class declares.
pub fn own_method(
    program: &Program,
    among: Among,
    sought: &Sought,
    class: ClassId,
) -> Option<MethodId>
    ensures { result ≡ option_map as_method (own_method program.now (passes among) sought.now.0 sought.now.1 class.0) }
{
    let first = program.classes.methods_of(class.0 as usize).first;
    let last = methods_of(program, class).last()?.0;
    method_between(program, among, sought, first, last)
}

/// The method of a class or of the first of its superclasses that declares one.
pub fn inherited_method(
    program: &Program,
    among: Among,
    sought: &Sought,
    class: ClassId,
) -> Option<MethodId>
    ensures { result ≡ option_map as_method (first_given (own_method program.now (passes among) sought.now.0 sought.now.1) (superclasses program.now class.0)) }
{
    let mut left = program.classes.len();
    let mut next = Some(class);
    while left > 0 {
        let Some(class) = next else {
            return None;
        };
        if let Some(method) = own_method(program, among, sought, class) {
            return Some(method);
        }
        next = superclass_of(program, class);
        left -= 1;
    }
    None
}

/// Whether an interface declares a method that is neither private nor static.
#[derive(Clone, Copy)]
pub struct Declares<'a, 'b> {
    pub sought: &'a Sought<'b>,
}

impl<'a, 'b> Question for Declares<'a, 'b> {
    ghost answer = { λ s p i. own_method p is_inherited s.sought.now.0 s.sought.now.1 i };

    fn ask(&self, program: &Program, class: ClassId) -> Option<u32> {
        match own_method(program, Among::Inherited, self.sought, class) {
            Some(method) => Some(method.0),
            None => None,
        }
    }
}
