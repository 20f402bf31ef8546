//! The text of an agreement.

ghost use Rattle.std.specs.Prelude.{◌≡◌, ◌++◌, ℕ, List, IfOk, OnOk, length};
ghost use Rattle.vx_list.specs.Places.{item_or};
ghost use Rattle.vx_space.specs.Sets.{IsKnown};
ghost use Rattle.vx_report.specs.declared.report.Report.{Report};
ghost use Rattle.vx_agree.specs.Agreement.{IsAgreement};
ghost use Rattle.vx_agree.specs.Text.{IsAgreementText, root_lines, set_text};

use std::alloc::{AllocError, Global};
use vx_bdd_tools::{Node, listing};
use vx_report::{Report, put_nodes, put_options};
use vx_space::Space;
use vx_value::Name;
use vx_words::put_number;

/// Puts the number of the set, and the last line.
fn put_root(out: &mut Vec<u8>, root: u64) -> Result<(), AllocError>
    ensures { OnOk result (out.new.items ≡ out.old.items ++ root_lines root) }
{
    out.extend_from_slice(b"agree ")?;
    put_number(out, root)?;
    out.extend_from_slice(b"\n")?;
    out.extend_from_slice(b"done\n")
}

/// The text of the set with a number among nodes.
#[tactic(auto, unfolding(crate::specs::Text::set_text))]
fn set_text(
    alloc: Global,
    options: &[Name],
    nodes: &[Node],
    root: u64,
) -> Result<Vec<u8>, AllocError>
    ensures { IfOk result (λ text. text.items ≡ set_text options.now nodes.now root) }
{
    let mut out = Vec::new(alloc);
    out.extend_from_slice(b"varexj agree 1\n")?;
    put_options(&mut out, options)?;
    put_nodes(&mut out, nodes)?;
    put_root(&mut out, root)?;
    Ok(out)
}

/// The first of some numbers, and 0 where there is none.
fn first_number(numbers: &[u64]) -> u64
    ensures { result ≡ item_or numbers.now 0 0 }
{
    numbers.first().copied().unwrap_or(0)
}

/// The text of the set of the configurations at which a report agrees with another over the same options: `varexj agree 1`,
/// the options as in a report, the nodes of the set's reduced diagram in the numbering of reports, `agree` with the number of the
/// set, and `done`. Never and always have the numbers 0 and 1 and no node.
pub fn agreement_text<S: Space>(
    alloc: Global,
    space: &S,
    report: &Report,
    set: S::Id,
) -> Result<Vec<u8>, AllocError>
    requires known { IsKnown (S.sets space.now) set }
    requires options { length report.now.options ≡ (S.sets space.now).options }
    ensures text { IfOk result (λ text. (other : Report) → IsAgreement (S.sets space.now) report.now other set → IsAgreementText report.now other text.items) }

    // No other text shows the agreement of the two.
    ensures only { IfOk result (λ text. (other : Report) (another : List ℕ) → IsAgreement (S.sets space.now) report.now other set →
        IsAgreementText report.now other another → another ≡ text.items) }
{
    let mut roots = Vec::new(alloc);
    roots.push(set)?;
    let list = listing(alloc, space, roots.as_slice())?;
    let root = first_number(list.roots.as_slice());
    set_text(
        alloc,
        report.options.as_slice(),
        list.nodes.as_slice(),
        root,
    )
}
