//! Superclasses and superinterfaces (JVMS 4.1, 5.3.5).

ghost use Rattle.std.specs.Prelude.{◌≡◌, IfOk, map, nat_eq};
ghost use Rattle.vx_java.specs.Ids.{as_class};
ghost use Rattle.vx_java.specs.Specific.{number_if};
ghost use Rattle.vx_link.specs.Hierarchy.{interfaces_below, is_among, superclasses, superinterfaces};

use crate::parts::superclass_of;
use crate::questions::{Question, ask_below, ask_superinterfaces, no_marks};
use std::alloc::{AllocError, Global};
use vx_link::Program;
use vx_value::ClassId;

/// Whether a class is this one.
#[derive(Clone, Copy)]
struct Is {
    wanted: usize,
}

impl Question for Is {
    ghost answer = { λ s p i. number_if (nat_eq s.wanted i) i };

    fn ask(&self, _program: &Program, class: ClassId) -> Option<u32> {
        if self.wanted == class.0 as usize {
            Some(class.0)
        } else {
            None
        }
    }
}

/// Whether a class is a superinterface of another, or of one of its superclasses.
pub fn is_superinterface(program: &Program, wanted: usize, class: ClassId) -> bool
    ensures { result ≡ is_among wanted (superinterfaces program.now class.0) }
{
    let question = Is { wanted };
    ask_superinterfaces(program, &question, class).is_some()
}

/// Whether a class is another or one of its superclasses.
pub fn is_superclass(program: &Program, wanted: usize, class: ClassId) -> bool
    ensures { result ≡ is_among wanted (superclasses program.now class.0) }
{
    let mut left = program.classes.len();
    let mut next = Some(class);
    while left > 0 {
        let Some(class) = next else {
            return false;
        };
        if wanted == class.0 as usize {
            return true;
        }
        next = superclass_of(program, class);
        left -= 1;
    }
    false
}

/// A class and its superclasses upward.
pub fn superclasses(
    alloc: Global,
    program: &Program,
    class: ClassId,
) -> Result<Vec<ClassId>, AllocError>
    ensures { IfOk result (λ chain. chain.items ≡ map as_class (superclasses program.now class.0)) }
{
    let mut chain = Vec::new(alloc);
    let mut left = program.classes.len();
    let mut next = Some(class);
    while left > 0 {
        let Some(class) = next else {
            return Ok(chain);
        };
        chain.push(class)?;
        next = superclass_of(program, class);
        left -= 1;
    }
    Ok(chain)
}

/// Whether a class stands among the direct superinterfaces of another and those of these.
pub fn is_declared_above(program: &Program, wanted: usize, class: ClassId) -> bool
    ensures { result ≡ is_among wanted (interfaces_below program.now class.0) }
{
    let question = Is { wanted };
    let mut silent = no_marks();
    ask_below(program, &question, class, &mut silent).is_some()
}
