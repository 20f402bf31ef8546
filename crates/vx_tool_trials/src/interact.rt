//! The options of pieces and ends.

ghost use Rattle.vx_report_reader.specs.Lawful.{IsLawful};

use std::alloc::{AllocError, Global};
use vx_interact::{interactions, interactions_text};
use vx_report::Report;
use vx_report_reader::read_report;

/// Reports, with the text of the interactions of each.
const CASES: [(&str, &str); 3] = [
    // A piece under an option, one under none, and an end that another one covers.
    (
        "varexj report 1\noptions 1\noption A\nlimit 100\nrounds 4\nnode 2 0 0 1\nout 2 a\nout 1 b\nend 1 return\nend 2 exit 3\ndone\n",
        "varexj interact 1\npiece 1 1 A\npiece 2 0 -\nend 1 0 -\nend 2 1 A\ndone\n",
    ),
    // A node that two others share: what is below it counts for both.
    (
        "varexj report 1\noptions 3\noption A\noption B\noption C\nlimit 100\nrounds 4\nnode 2 2 0 1\nnode 3 1 0 2\nnode 4 0 3 2\nnode 5 0 1 2\nerr 4 a\nout 5 b\nend 1 return\ndone\n",
        "varexj interact 1\npiece 1 3 A,B,C\npiece 2 2 A,C\nend 1 0 -\ndone\n",
    ),
    // Numbers of attempts have no line.
    (
        "varexj report 2\noptions 1\noption A\nlimit 100\nrounds 4\nnode 2 0 0 1\nend 1 return\nattempts 2 3\nattempts 1 4\ndone\n",
        "varexj interact 1\nend 1 0 -\ndone\n",
    ),
];

/// Whether this is the text of a report's interactions.
fn is_text(alloc: Global, report: &Report, text: &str) -> Result<bool, AllocError>
    requires { IsLawful report.now }
{
    let entries = interactions(alloc, report)?;
    let written = interactions_text(alloc, report, entries.as_slice())?;
    Ok(written.as_slice() == text.as_bytes())
}

#[test]
fn options_of_pieces_and_ends(rt: HostRuntime) {
    for (bytes, text) in CASES {
        let report = read_report(rt.alloc(), bytes.as_bytes()).expect(&rt, "a report");
        assert!(rt;
            matches!(is_text(rt.alloc(), &report, text), Ok(true)),
            "{text}"
        );
    }
}
