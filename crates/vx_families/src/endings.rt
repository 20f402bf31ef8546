//! Groups that raise an exception of the core classes, or end outside the accepted language, as a whole.

ghost use Rattle.std.specs.Prelude.{IfOk, None, unwrap_or};
ghost use Rattle.vx_space.specs.Sets.{Sets};
ghost use Rattle.vx_java.specs.Ids.{HasClassNumbers};
ghost use Rattle.vx_java.specs.Machine.{Raise as RaiseOf, unsupported_in};
ghost use Rattle.vx_link.specs.ClassNames.{class_of_name};
ghost use Rattle.vx_group_states.specs.Sites.{Gives};

use std::alloc::{AllocError, Global};
use vx_group::Group;
use vx_java::{core_class, place};
use vx_link::Program;
use vx_outcome::{Outcome, Outcomes};
use vx_space::{Space, SpaceFault};
use vx_value::{End, Name};

/// All runs of a group raise an exception of the class of this name, without a message.
pub fn raise<S: Space>(
    alloc: Global,
    program: &Program,
    group: Group<S>,
    name: &[u8],
) -> Result<Outcomes<S>, AllocError>
    requires { HasClassNumbers program.now }
    ensures { IfOk result (λ r. (sets : Sets S.Id) → Gives program.now (λ s. RaiseOf (unwrap_or (class_of_name program.now name.now) 0) None s) sets sets group r.items.items) }
{
    let mut outcomes = Outcomes::new(alloc);
    outcomes.push(Outcome::Raise {
        group,
        class: core_class(program, name),
        message: None,
    })?;
    Ok(outcomes)
}

/// All runs of a group end outside the accepted language: the number of the word that says in which way, and what is
/// named.
pub fn unsupported<S: Space>(
    alloc: Global,
    program: &Program,
    group: &Group<S>,
    word: u8,
    what: Name,
) -> Result<Outcomes<S>, SpaceFault>
    ensures { IfOk result (λ r. (sets : Sets S.Id) → Gives program.now (λ s. unsupported_in program.now s word what) sets sets group.now r.items.items) }
{
    let top = group.top_frame();
    let place = place(alloc, program, top.method, top.position)?;
    let mut outcomes = Outcomes::new(alloc);
    outcomes.push(Outcome::Ended {
        condition: group.path(),
        end: End::Unsupported { word, what, place },
    })?;
    Ok(outcomes)
}
