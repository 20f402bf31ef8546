//! Checks of reports.

ghost use Rattle.std.specs.Prelude.{◌≡◌, ◌≤◌, length};
ghost use Rattle.vx_report_reader.specs.Lawful.{IsLawful};

use crate::reports::{MAIL, PLAIN, report_of};
use std::alloc::Global;
use vx_bdd::BddSpace;
use vx_check::{check_report, checked_text, read_expected};
use vx_model::ModelFault;
use vx_report::Report;
use vx_space::SpaceFault;

/// Reports, what is expected of them, and their checks.
const CASES: [(&str, &str, &str); 4] = [
    (PLAIN, "", "varexj check 1\nof 2\nfailing 0\ndone\n"),
    (
        MAIL,
        "",
        "varexj check 1\nof 4\nfailing 1\n1 MAIL,SIGN,ZIP - uncaught java/lang/IllegalStateException when SIGN & ZIP\ndone\n",
    ),
    (
        MAIL,
        "# as it is\nuncaught when SIGN & ZIP\n",
        "varexj check 1\nof 4\nfailing 0\ndone\n",
    ),
    (
        MAIL,
        "\nreturn when ZIP\n exit 3 when MAIL & !SIGN\n",
        "varexj check 1\nof 4\nfailing 3\n1 MAIL,SIGN,ZIP 2 uncaught java/lang/IllegalStateException when SIGN & ZIP\n2 MAIL 3 return when !SIGN\ndone\n",
    ),
];

/// Texts that expect nothing, with their first bad lines and the reasons.
const BAD: [(&str, u64, u8); 12] = [
    ("return\n", 1, 1),
    ("\n#\nreturn when\n", 3, 4),
    ("when return\n", 1, 1),
    ("exit 03 when A\n", 1, 2),
    ("exit 3 4 when A\n", 1, 2),
    ("returned when A\n", 1, 2),
    ("unsupported clas when A\n", 1, 2),
    ("unsupported float java/lang/Object when A\n", 1, 2),
    (
        "unsupported class java/lang/Object L.m()V@1 2 when A\n",
        1,
        2,
    ),
    ("uncaught when A &\n", 1, 4),
    ("uncaught when B\n", 1, 5),
    ("return when A\nuncaught when A\rB\n", 2, 1),
];

/// Words that begin an end.
const GOOD: [&str; 14] = [
    "return when A",
    "exit when A",
    "exit -3 when !A",
    "uncaught when true",
    "uncaught java/lang/Error when A",
    "illegal when A",
    "illegal L.m()V@1 when A",
    "unfinished when A",
    "unsupported when A",
    "unsupported float when A",
    "unsupported float - when A",
    "unsupported class java/lang/Object when A",
    "unsupported class java/lang/Object L.m()V@1 when A",
    "\tunsupported  native\tm when (A)|A->A\t&!A ",
];

/// Whether this is the text of the check of a report against what is expected.
fn is_check(alloc: Global, report: &Report, expected: &str, text: &str) -> Result<bool, SpaceFault>
    requires lawful { IsLawful report.now }
    requires few { length report.now.options ≤ 64 }
{
    let Ok(expected) = read_expected(alloc, report, expected.as_bytes()) else {
        return Ok(false);
    };
    let mut space = BddSpace::new(alloc, report.options.len() as u32)?;
    let checked = check_report(alloc, &mut space, report, expected.as_slice())?;
    let written = checked_text(alloc, report, &checked)?;
    Ok(written.as_slice() == text.as_bytes())
}

/// Whether this is the first bad line of what is expected, with its reason.
fn is_bad(alloc: Global, report: &Report, expected: &str, at: u64, why: u8) -> bool
    requires { IsLawful report.now }
{
    match read_expected(alloc, report, expected.as_bytes()) {
        Err(ModelFault::Line { line, reason }) => line == at && reason == why,
        _ => false,
    }
}

#[test]
fn checks_of_reports(rt: HostRuntime) {
    for (report, expected, text) in CASES {
        let report = report_of(&rt, rt.alloc(), report);
        assert!(rt; report.options.len() <= 64);
        assert!(rt;
            matches!(is_check(rt.alloc(), &report, expected, text), Ok(true)),
            "{}",
            text
        );
    }
}

#[test]
fn lines_that_expect_nothing(rt: HostRuntime) {
    let report = report_of(&rt, rt.alloc(), PLAIN);
    for (expected, line, reason) in BAD {
        assert!(rt;
            is_bad(rt.alloc(), &report, expected, line, reason),
            "{}",
            expected
        );
    }
}

#[test]
fn words_that_begin_ends(rt: HostRuntime) {
    let report = report_of(&rt, rt.alloc(), PLAIN);
    for expected in GOOD {
        assert!(rt;
            read_expected(rt.alloc(), &report, expected.as_bytes()).is_ok(),
            "{}",
            expected
        );
    }
}
