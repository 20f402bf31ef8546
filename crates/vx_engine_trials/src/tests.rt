use crate::cases::{CASES, Case, DIFFERENT_VALUES};
use crate::last_key::LastKey;
use crate::runs::{agree, report_of};
use std::alloc::Global;
use std::process::Abort;
use std::test::Fail;
use vx_report_reader::read_report;
use vx_sched::LeastKey;

/// Whether the first keys give the report of a case.
fn is_reported(rt: &impl Abort, alloc: Global, case: &Case) -> Result<bool, Fail> {
    let text = report_of(rt, alloc, case, &mut LeastKey)?;
    Ok(text.as_slice() == case.report)
}

#[test]
fn branches_meet_as_soon_as_they_can(rt: HostRuntime) -> Result<(), Fail> {
    assert!(rt; is_reported(&rt, rt.alloc(), &DIFFERENT_VALUES)?);
    Ok(())
}

/// Whether a text is a report of so many rounds that says the same as that of a case.
fn is_same_in(alloc: Global, text: &[u8], case: &Case, rounds: u128) -> Result<bool, Fail> {
    Ok(agree(alloc, text, case.report)? && read_report(alloc, text)?.rounds == rounds)
}

#[test]
fn branches_meet_as_late_as_they_can(rt: HostRuntime) -> Result<(), Fail> {
    let text = report_of(&rt, rt.alloc(), &DIFFERENT_VALUES, &mut LastKey)?;
    assert!(rt; is_same_in(rt.alloc(), text.as_slice(), &DIFFERENT_VALUES, 17)?);
    Ok(())
}

/// Whether the last keys give a report that says the same as that of a case.
fn is_same_with_last_keys(rt: &impl Abort, alloc: Global, case: &Case) -> Result<bool, Fail> {
    let text = report_of(rt, alloc, case, &mut LastKey)?;
    agree(alloc, text.as_slice(), case.report)
}

/// Asserts that each of the cases has its report with the first keys, and one that says the same with the last keys.
fn are_reported(rt: &impl Abort, alloc: Global, cases: &[Case]) -> Result<(), Fail> {
    for case in cases {
        assert!(rt;
            is_reported(rt, alloc, case)? && is_same_with_last_keys(rt, alloc, case)?,
            "{:?}",
            case.report
        );
    }
    Ok(())
}

#[test]
fn what_runs_come_to_depends_on_no_order(rt: HostRuntime) -> Result<(), Fail> {
    are_reported(&rt, rt.alloc(), &CASES)
}
