//! Covers.

ghost use Rattle.std.specs.Prelude.{◌≡◌, ◌≤◌, length};
ghost use Rattle.vx_report_reader.specs.Lawful.{IsLawful};

use crate::reports::{MAIL, ODD, PLAIN, report_of};
use std::alloc::Global;
use vx_bdd::BddSpace;
use vx_cover::{cover, cover_text};
use vx_report::Report;
use vx_space::SpaceFault;

/// Reports with their covers.
const CASES: [(&str, &str); 3] = [
    (PLAIN, "varexj cover 1\ntry - 1 1\ntry A - 2\ndone\n"),
    (
        MAIL,
        "varexj cover 1\ntry MAIL,SIGN 1 1\ntry MAIL,SIGN,ZIP 2 -\ndone\n",
    ),
    (ODD, "varexj cover 1\ntry A,B 1 2\ndone\n"),
];

/// Whether this is the text of a report's cover.
fn is_text(alloc: Global, report: &Report, text: &str) -> Result<bool, SpaceFault>
    requires lawful { IsLawful report.now }
    requires few { length report.now.options ≤ 64 }
{
    let mut space = BddSpace::new(alloc, report.options.len() as u32)?;
    let tries = cover(alloc, &mut space, report)?;
    let written = cover_text(alloc, report, tries.as_slice())?;
    Ok(written.as_slice() == text.as_bytes())
}

#[test]
fn covers_of_reports(rt: HostRuntime) {
    for (report, text) in CASES {
        let report = report_of(&rt, rt.alloc(), report);
        assert!(rt; report.options.len() <= 64);
        assert!(rt;
            matches!(is_text(rt.alloc(), &report, text), Ok(true)),
            "{}",
            text
        );
    }
}
