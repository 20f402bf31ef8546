//! Calls whose reference names no method that the instruction may call (JVMS 5.4.3.3, 5.4.3.4, 6.5).

ghost use Rattle.std.specs.Prelude.{◌≡◌, IfOk, true};
ghost use Rattle.vx_group_states.specs.Sites.{Gives, here};
ghost use Rattle.vx_java.specs.Ids.{HasClassNumbers};
ghost use Rattle.vx_java.specs.Named.{in_bytes};
ghost use Rattle.vx_java.specs.declared.operation.Mode.{Mode};
ghost use Rattle.vx_references.specs.Calls.{by_reference};
ghost use Rattle.vx_space.specs.Sets.{Sets};
ghost use Rattle.vx_invoke.specs.Calling.{is_unresolved};

use crate::entering::raised;
use std::alloc::Global;
use vx_families::{CLASS_WORD, METHOD_WORD, unsupported};
use vx_group::Group;
use vx_group_states::Site;
use vx_java::MemberReference;
use vx_outcome::Outcomes;
use vx_references::{MethodReference, member_text};
use vx_space::{Space, SpaceFault};
use vx_value::Name;

/// All runs end outside the accepted language where the class or the method isn't there, and raise an exception where the instruction may
/// not call the method.
pub(crate) fn unresolved<S: Space>(
    alloc: Global,
    site: &Site,
    group: Group<S>,
    reference: MethodReference,
    named: &MemberReference<'_>,
) -> Result<Outcomes<S>, SpaceFault>
    requires classes { HasClassNumbers site.now.program.now }
    requires missing { is_unresolved reference ≡ true }
    ensures { IfOk result (λ r. (mode : Mode) (sets : Sets S.Id) → Gives site.now.program.now (λ s. by_reference (here site.now s) mode (in_bytes named.now) reference) sets sets group r.items.items) }
{
    match reference {
        MethodReference::NoClass => {
            let name = Name::of(alloc, named.class)?;
            unsupported(alloc, site.program, &group, CLASS_WORD, name)
        }
        MethodReference::NoMethod => {
            let name = member_text(alloc, named)?;
            unsupported(alloc, site.program, &group, METHOD_WORD, name)
        }
        MethodReference::WrongKind => {
            raised(
                alloc,
                site,
                group,
                b"java/lang/IncompatibleClassChangeError",
            )
        }
        MethodReference::Found { .. } | MethodReference::Clone(_) => unreachable!(),
    }
}
