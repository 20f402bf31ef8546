//! The maximally-specific superinterface methods of a class (JVMS 5.4.3.3, Java SE 8).

ghost use Rattle.std.specs.List.{list_any};
ghost use Rattle.std.specs.Prelude.{◌≡◌, ◌&&◌, ◌==◌, is_some, not, option_map};
ghost use Rattle.vx_java.specs.Ids.{as_method};
ghost use Rattle.vx_java.specs.Selection.{of_specific};
ghost use Rattle.vx_java.specs.Specific.{first_of, gives, gives_beside, is_overridden, number_if, overrides, specific_in};
ghost use Rattle.vx_link.specs.Hierarchy.{superinterfaces};
ghost use Rattle.vx_link.specs.Resolution.{specific_methods};

use crate::hierarchy::is_declared_above;
use crate::methods::{Among, own_method};
use crate::parts::flags_of_method;
use crate::questions::{Question, ask_superinterfaces};
use crate::selected::Selected;
use bitflags::Flags;
use vx_link::{AccessFlags, Program, Sought};
use vx_value::{ClassId, MethodId};

/// Whether an interface declares a method too, and stands below another interface.
#[derive(Clone, Copy)]
struct Overrides<'a, 'b> {
    sought: &'a Sought<'b>,
    interface: ClassId,
}

impl<'a, 'b> Question for Overrides<'a, 'b> {
    ghost answer = { λ s p j. number_if (overrides p s.sought.now.0 s.sought.now.1 s.interface.0 j) j };

    fn ask(&self, program: &Program, class: ClassId) -> Option<u32> {
        if own_method(program, Among::Inherited, self.sought, class).is_some()
            && is_declared_above(program, self.interface.0 as usize, class)
        {
            Some(class.0)
        } else {
            None
        }
    }
}

fn is_overridden(program: &Program, sought: &Sought, class: ClassId, interface: ClassId) -> bool
    ensures { result ≡ is_overridden program.now sought.now.0 sought.now.1 class.0 interface.0 }
{
    let overrides = Overrides { sought, interface };
    ask_superinterfaces(program, &overrides, class).is_some()
}

/// The method of a superinterface, where it is maximally-specific and not abstract.
fn specific_in(
    program: &Program,
    sought: &Sought,
    class: ClassId,
    interface: ClassId,
) -> Option<MethodId>
    ensures { result ≡ option_map as_method (specific_in program.now sought.now.0 sought.now.1 class.0 interface.0) }
{
    let Some(method) = own_method(program, Among::Inherited, sought, interface) else {
        return None;
    };
    if is_overridden(program, sought, class, interface)
        || flags_of_method(program, method).contains(AccessFlags::ABSTRACT)
    {
        return None;
    }
    Some(method)
}

/// Whether a superinterface of a class gives a method.
#[derive(Clone, Copy)]
struct Gives<'a, 'b> {
    sought: &'a Sought<'b>,
    class: ClassId,
}

impl<'a, 'b> Question for Gives<'a, 'b> {
    ghost answer = { λ s p i. number_if (is_some (specific_in p s.sought.now.0 s.sought.now.1 s.class.0 i)) i };

    fn ask(&self, program: &Program, class: ClassId) -> Option<u32> {
        if specific_in(program, self.sought, self.class, class).is_some() {
            Some(class.0)
        } else {
            None
        }
    }
}

/// Whether a superinterface of a class other than the first gives a method.
#[derive(Clone, Copy)]
struct GivesBeside<'a, 'b> {
    sought: &'a Sought<'b>,
    class: ClassId,
    first: ClassId,
}

impl<'a, 'b> Question for GivesBeside<'a, 'b> {
    ghost answer = { λ s p i. number_if (not (s.first.0 == i) && is_some (specific_in p s.sought.now.0 s.sought.now.1 s.class.0 i)) i };

    fn ask(&self, program: &Program, class: ClassId) -> Option<u32> {
        if self.first.0 != class.0
            && specific_in(program, self.sought, self.class, class).is_some()
        {
            Some(class.0)
        } else {
            None
        }
    }
}

fn first_that_gives(program: &Program, sought: &Sought, class: ClassId) -> Option<u32>
    ensures { result ≡ first_of (gives (specific_in program.now sought.now.0 sought.now.1 class.0)) (superinterfaces program.now class.0) }
{
    let question = Gives { sought, class };
    ask_superinterfaces(program, &question, class)
}

fn others_give(program: &Program, sought: &Sought, class: ClassId, first: ClassId) -> bool
    ensures { result ≡ list_any (gives_beside (specific_in program.now sought.now.0 sought.now.1 class.0) first.0) (superinterfaces program.now class.0) }
{
    let question = GivesBeside {
        sought,
        class,
        first,
    };
    ask_superinterfaces(program, &question, class).is_some()
}

/// What is selected among the maximally-specific superinterface methods of a class that are not abstract: the only one, `Abstract`
/// where there is none, `Conflict` where there are several.
pub fn specific_method(program: &Program, sought: &Sought, class: ClassId) -> Selected
    ensures { result ≡ of_specific (specific_methods program.now sought.now.0 sought.now.1 class.0) }
{
    let Some(first) = first_that_gives(program, sought, class) else {
        return Selected::Abstract;
    };
    let first = ClassId(first);
    if others_give(program, sought, class, first) {
        return Selected::Conflict;
    }
    match specific_in(program, sought, class, first) {
        Some(method) => Selected::Method(method),
        None => Selected::Abstract,
    }
}
