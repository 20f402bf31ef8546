//! Where two reports agree, over the space of masks and the space of diagrams.

ghost use Rattle.std.specs.Prelude.{◌≡◌, ◌≤◌, length};
ghost use Rattle.vx_report_reader.specs.Lawful.{IsLawful};

use crate::reports::{ALL_ON, CASES, EVERYWHERE, LINES, ONE_PIECE, UNLIKE};
use std::alloc::Global;
use std::process::Abort;
use vx_agree::{agreement, agreement_text, have_same_options};
use vx_bdd::BddSpace;
use vx_report::Report;
use vx_report_reader::read_report;
use vx_space::{MaskSpace, Space, SpaceFault};

/// Whether this is the text of the agreement of two reports.
fn is_text<S: Space>(
    alloc: Global,
    space: &mut S,
    one: &Report,
    other: &Report,
    text: &str,
) -> Result<bool, SpaceFault>
    requires one { IsLawful one.now }
    requires other { IsLawful other.now }
    requires names { one.now.options ≡ other.now.options }
    requires options { length one.now.options ≡ (S.sets space.old).options }
{
    let set = agreement(alloc, space, one, other)?;
    let written = agreement_text(alloc, space, one, set)?;
    Ok(written.as_slice() == text.as_bytes())
}

/// The same over diagrams.
fn over_diagrams(
    alloc: Global,
    one: &Report,
    other: &Report,
    text: &str,
) -> Result<bool, SpaceFault>
    requires one { IsLawful one.now }
    requires other { IsLawful other.now }
    requires names { one.now.options ≡ other.now.options }
{
    let mut space = BddSpace::new(alloc, one.options.len() as u32)?;
    is_text(alloc, &mut space, one, other, text)
}

/// The same over masks, for up to 6 options.
fn over_masks(alloc: Global, one: &Report, other: &Report, text: &str) -> Result<bool, SpaceFault>
    requires one { IsLawful one.now }
    requires other { IsLawful other.now }
    requires names { one.now.options ≡ other.now.options }
    requires few { length one.now.options ≤ 6 }
{
    let mut space = MaskSpace::new(one.options.len() as u32);
    is_text(alloc, &mut space, one, other, text)
}

fn report_of(rt: &impl Abort, alloc: Global, text: &str) -> Report
    ensures { IsLawful result }
{
    read_report(alloc, text.as_bytes()).expect(rt, "a report")
}

#[test]
fn cases_over_diagrams(rt: HostRuntime) {
    for case in CASES {
        let one = report_of(&rt, rt.alloc(), case.one);
        let other = report_of(&rt, rt.alloc(), case.other);
        assert!(rt; have_same_options(&one, &other));
        assert!(rt;
            matches!(over_diagrams(rt.alloc(), &one, &other, case.text), Ok(true)),
            "{}",
            case.text
        );
    }
}

#[test]
fn cases_over_masks(rt: HostRuntime) {
    for case in CASES {
        let one = report_of(&rt, rt.alloc(), case.one);
        let other = report_of(&rt, rt.alloc(), case.other);
        assert!(rt; have_same_options(&one, &other) && one.options.len() <= 6);
        assert!(rt;
            matches!(over_masks(rt.alloc(), &one, &other, case.text), Ok(true)),
            "{}",
            case.text
        );
    }
}

/// Whether the reports of two texts agree as a third says.
fn agree(rt: &impl Abort, alloc: Global, one: &str, other: &str, text: &str) -> bool {
    let one = report_of(rt, alloc, one);
    let other = report_of(rt, alloc, other);
    assert!(rt; have_same_options(&one, &other));
    matches!(over_diagrams(alloc, &one, &other, text), Ok(true))
}

/// The outputs of 24 lines, each under an option of its own, are 2^24.
#[test]
fn lines_under_options_of_their_own(rt: HostRuntime) {
    assert!(rt; agree(&rt, rt.alloc(), LINES, LINES, EVERYWHERE));
    assert!(rt; agree(&rt, rt.alloc(), LINES, ONE_PIECE, ALL_ON));
}

/// Other names and other numbers of options are told apart.
#[test]
fn options_that_differ(rt: HostRuntime) {
    let [a, b, both] = UNLIKE;
    let first = report_of(&rt, rt.alloc(), a);
    let second = report_of(&rt, rt.alloc(), b);
    let third = report_of(&rt, rt.alloc(), both);
    assert!(rt; have_same_options(&first, &first) && !have_same_options(&first, &second));
    assert!(rt; !have_same_options(&first, &third) && !have_same_options(&third, &first));
}
