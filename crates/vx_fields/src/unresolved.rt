//! Instructions of fields whose reference names no field that they can take (JVMS 5.4.3.2, 6.5).

ghost use Rattle.std.specs.Prelude.{◌≡◌, IfOk, false, true};
ghost use Rattle.vx_java.specs.Fields.{Found};
ghost use Rattle.vx_java.specs.Ids.{HasClassNumbers};
ghost use Rattle.vx_java.specs.Machine.{Outcome as PlainOutcome};
ghost use Rattle.vx_java.specs.Named.{in_bytes};
ghost use Rattle.vx_space.specs.Sets.{Sets};
ghost use Rattle.vx_group_states.specs.Sites.{Gives, here};
ghost use Rattle.vx_references.specs.Fields.{by_reference, is_ending, is_found};

use std::alloc::Global;
use vx_families::{CLASS_WORD, FIELD_WORD, FLOAT_WORD, raise, unsupported};
use vx_group::Group;
use vx_group_states::{Site, illegal};
use vx_java::MemberReference;
use vx_outcome::Outcomes;
use vx_references::{FieldReference, field_text};
use vx_space::{Space, SpaceFault};
use vx_value::Name;

/// All runs of a group end, as the reference says whose field isn't found.
fn ended<S: Space>(
    alloc: Global,
    site: &Site,
    group: &Group<S>,
    reference: FieldReference,
    named: &MemberReference<'_>,
) -> Result<Outcomes<S>, SpaceFault>
    requires { is_ending reference ≡ true }
    ensures { IfOk result (λ r. (sets : Sets S.Id) (rest : Found → PlainOutcome) → Gives site.now.program.now (λ s. by_reference (here site.now s) (in_bytes named.now) reference rest) sets sets group.now r.items.items) }
{
    let program = site.program;
    match reference {
        FieldReference::Found { .. } | FieldReference::Disagrees => unreachable!(),
        FieldReference::NoType => illegal(alloc, program, group),
        FieldReference::Floating => {
            let what = Name::of(alloc, b"-")?;
            unsupported(alloc, program, group, FLOAT_WORD, what)
        }
        FieldReference::NoClass => {
            let what = Name::of(alloc, named.class)?;
            unsupported(alloc, program, group, CLASS_WORD, what)
        }
        FieldReference::NoField => {
            let what = field_text(alloc, named)?;
            unsupported(alloc, program, group, FIELD_WORD, what)
        }
    }
}

/// All runs of a group end or raise, as the reference says whose field isn't found.
pub fn unresolved<S: Space>(
    alloc: Global,
    site: &Site,
    group: Group<S>,
    reference: FieldReference,
    named: &MemberReference<'_>,
) -> Result<Outcomes<S>, SpaceFault>
    requires classes { HasClassNumbers site.now.program.now }
    requires unresolved { is_found reference ≡ false }
    ensures { IfOk result (λ r. (sets : Sets S.Id) (rest : Found → PlainOutcome) → Gives site.now.program.now (λ s. by_reference (here site.now s) (in_bytes named.now) reference rest) sets sets group r.items.items) }
{
    if let FieldReference::Disagrees = reference {
        let raised = raise(
            alloc,
            site.program,
            group,
            b"java/lang/IncompatibleClassChangeError",
        )?;
        return Ok(raised);
    }
    ended(alloc, site, &group, reference, named)
}
