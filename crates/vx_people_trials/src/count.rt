//! Counts of reports, and their first configurations.

ghost use Rattle.std.specs.Prelude.{◌≡◌, ◌≤◌, length};
ghost use Rattle.vx_report_reader.specs.Lawful.{IsLawful};

use crate::reports::{MAIL, ODD, PLAIN, WIDE, report_of};
use std::alloc::Global;
use vx_bdd::BddSpace;
use vx_count::{count_report, counts_text, list_report, listed_text};
use vx_report::Report;
use vx_space::SpaceFault;

/// Reports, their counts and their first configurations, at most five, as a script that looks at each configuration says. Of the wide one
/// two to the 64th has an end.
const CASES: [(&str, &str, &str); 4] = [
    (
        PLAIN,
        "varexj count 1\nof 2\n2 end return\n1 out 1 2 0\\0a\n1 out 2 2 1\\0a\ndone\n",
        "varexj list 1\nof 2\n- return\nA return\ndone\n",
    ),
    (
        MAIL,
        "varexj count 1\nof 4\n1 end uncaught java/lang/IllegalStateException\n3 end return\n2 out 1 8 checked\\0a\ndone\n",
        "varexj list 1\nof 4\nMAIL return\nMAIL,ZIP return\nMAIL,SIGN return\nMAIL,SIGN,ZIP uncaught java/lang/IllegalStateException\ndone\n",
    ),
    (
        ODD,
        "varexj count 1\nof 2\n0 end exit 3\n2 end return\n0 out 1 4 a\\0a\n1 err 2 61 012345678901234567890123456789012345678901234567890123456789\ndone\n",
        "varexj list 1\nof 2\nA return\nA,B return\ndone\n",
    ),
    (
        WIDE,
        "varexj count 1\nof 18446744073709551616\n18446744073709551616 end return\n9223372036854775808 out 1 1 x\ndone\n",
        "varexj list 1\nof 18446744073709551616\n- return\nA63 return\nA62 return\nA62,A63 return\nA61 return\ndone\n",
    ),
];

/// Whether this is the text of a report's counts.
fn is_count(alloc: Global, report: &Report, text: &str) -> Result<bool, SpaceFault>
    requires lawful { IsLawful report.now }
    requires few { length report.now.options ≤ 64 }
{
    let mut space = BddSpace::new(alloc, report.options.len() as u32)?;
    let counts = count_report(alloc, &mut space, report)?;
    let written = counts_text(alloc, &counts)?;
    Ok(written.as_slice() == text.as_bytes())
}

/// Whether this is the text of a report's first five configurations.
fn is_list(alloc: Global, report: &Report, text: &str) -> Result<bool, SpaceFault>
    requires lawful { IsLawful report.now }
    requires few { length report.now.options ≤ 64 }
{
    let mut space = BddSpace::new(alloc, report.options.len() as u32)?;
    let listed = list_report(alloc, &mut space, report, 5)?;
    let written = listed_text(alloc, report, &listed)?;
    Ok(written.as_slice() == text.as_bytes())
}

#[test]
fn counts_of_reports(rt: HostRuntime) {
    for (report, counts, listed) in CASES {
        let report = report_of(&rt, rt.alloc(), report);
        assert!(rt; report.options.len() <= 64);
        assert!(rt;
            matches!(is_count(rt.alloc(), &report, counts), Ok(true)),
            "{}",
            counts
        );
        assert!(rt;
            matches!(is_list(rt.alloc(), &report, listed), Ok(true)),
            "{}",
            listed
        );
    }
}
