//! Instructions that name a class that the program doesn't have.

ghost use Rattle.std.specs.Prelude.{IfOk};
ghost use Rattle.vx_group_states.specs.Sites.{Gives, here};
ghost use Rattle.vx_java.specs.Machine.{unsupported as unsupported_of};
ghost use Rattle.vx_java.specs.Operation.{class_word};
ghost use Rattle.vx_link.specs.Names.{class_name};
ghost use Rattle.vx_space.specs.Sets.{Sets};

use crate::endings::unsupported;
use crate::words::CLASS_WORD;
use std::alloc::Global;
use vx_group::Group;
use vx_group_states::Site;
use vx_java::name_of_entry;
use vx_java::parts::class_of_method;
use vx_outcome::Outcomes;
use vx_space::{Space, SpaceFault};
use vx_value::Name;

/// All runs of a group end where an entry of the pool names a class that isn't there.
pub fn no_class<S: Space>(
    alloc: Global,
    site: &Site,
    group: &Group<S>,
    index: u16,
) -> Result<Outcomes<S>, SpaceFault>
    ensures { IfOk result (λ r. (sets : Sets S.Id) → Gives site.now.program.now (λ s. unsupported_of (here site.now s) class_word (class_name (here site.now s).pool index)) sets sets group.now r.items.items) }
{
    let class = class_of_method(site.program, group.top_frame().method);
    let what = Name::of(alloc, name_of_entry(site.program, class, index))?;
    unsupported(alloc, site.program, group, CLASS_WORD, what)
}
