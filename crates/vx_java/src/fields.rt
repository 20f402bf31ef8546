//! Resolution of fields (JVMS 5.4.3.2).

ghost use Rattle.std.specs.Prelude.{◌≡◌, ◌∷◌, option_map};
ghost use Rattle.vx_java.specs.Ids.{as_field};
ghost use Rattle.vx_java.specs.Silent.{AreSilent};
ghost use Rattle.vx_link.specs.Hierarchy.{interfaces_below};
ghost use Rattle.vx_link.specs.Resolution.{first_given, own_field, resolve_field};

use crate::between::first_between;
use crate::parts::{fields_of, is_array, superclass_of};
use crate::questions::{Marks, Question, ask_below, no_marks};
use vx_link::{Program, Sought};
use vx_value::{ClassId, FieldId};

fn own_field(program: &Program, sought: &Sought, class: ClassId) -> Option<FieldId>
    ensures { result ≡ option_map as_field (own_field program.now sought.now.0 sought.now.1 class.0) }
{
    let first = program.classes.fields_of(class.0 as usize).first;
    let last = fields_of(program, class).last()?.0;
    let field = first_between(&program.fields, sought, first, last)?;
    Some(FieldId(field))
}

/// Whether a class declares a field.
#[derive(Clone, Copy)]
struct Declares<'a, 'b> {
    sought: &'a Sought<'b>,
}

impl<'a, 'b> Question for Declares<'a, 'b> {
    ghost answer = { λ s p i. own_field p s.sought.now.0 s.sought.now.1 i };

    fn ask(&self, program: &Program, class: ClassId) -> Option<u32> {
        match own_field(program, self.sought, class) {
            Some(field) => Some(field.0),
            None => None,
        }
    }
}

/// The field of a class, or the first of its superinterfaces'.
fn own_or_below(
    program: &Program,
    question: &Declares,
    class: ClassId,
    silent: &mut Marks,
) -> Option<u32>
    requires { AreSilent (own_field program.now question.now.sought.now.0 question.now.sought.now.1) program.now silent.old }
    ensures answer { result ≡ first_given (own_field program.now question.now.sought.now.0 question.now.sought.now.1) (class.0 ∷ interfaces_below program.now class.0) }
    ensures silent { AreSilent (own_field program.now question.now.sought.now.0 question.now.sought.now.1) program.now silent.new }
{
    match question.ask(program, class) {
        Some(field) => Some(field),
        None => ask_below(program, question, class, silent),
    }
}

/// The field of a name and a descriptor that a class has: its own, then that of its superinterfaces, then that of its superclass
/// in the same way; an array class has none.
pub fn resolve_field(
    program: &Program,
    class: ClassId,
    name: &[u8],
    descriptor: &[u8],
) -> Option<FieldId>
    ensures { result ≡ option_map as_field (resolve_field program.now class.0 name.now descriptor.now) }
{
    if is_array(program, class) {
        return None;
    }
    let sought = Sought::of(name, descriptor);
    let question = Declares { sought: &sought };
    let mut silent = no_marks();
    let mut left = program.classes.len();
    let mut next = Some(class);
    while left > 0 {
        let Some(class) = next else {
            return None;
        };
        if let Some(field) = own_or_below(program, &question, class, &mut silent) {
            return Some(FieldId(field));
        }
        next = superclass_of(program, class);
        left -= 1;
    }
    None
}
