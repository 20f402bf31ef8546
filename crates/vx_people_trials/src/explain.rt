//! Explanations.

ghost use Rattle.std.specs.Prelude.{◌≡◌, ◌≤◌, length};
ghost use Rattle.vx_report_reader.specs.Lawful.{IsLawful};

use crate::reports::{MAIL, ODD, ONE_OF_FOUR, PARITY, PLAIN, TICKET, report_of};
use std::alloc::Global;
use vx_bdd::BddSpace;
use vx_explain::{Asked, explain, explanation_text};
use vx_report::Report;
use vx_space::SpaceFault;

/// Reports with their explanations.
const CASES: [(&str, &str); 6] = [
    (
        PLAIN,
        "varexj explain 2\nend return\nwhen true\nexample -\nout 1 2 0\\0a\nwhen !A\nexample -\nout 2 2 1\\0a\nwhen A\nexample A\ndone\n",
    ),
    (
        MAIL,
        "varexj explain 2\nend uncaught java/lang/IllegalStateException\nwhen SIGN & ZIP\nexample MAIL,SIGN,ZIP\nend return\nwhen !SIGN | !ZIP\nexample MAIL\nout 1 8 checked\\0a\nwhen SIGN\nexample MAIL,SIGN\ndone\n",
    ),
    (
        ODD,
        "varexj explain 2\nend exit 3\nwhen B\nexample A,B\nend return\nwhen true\nexample A\nout 1 4 a\\0a\nwhen false\nerr 2 61 012345678901234567890123456789012345678901234567890123456789\nwhen B\nexample A,B\ndone\n",
    ),
    (
        PARITY,
        "varexj explain 2\nend return\nwhen true\nexample -\nout 1 1 x\nwhen node 14\nexample G\ndone\n",
    ),
    (
        ONE_OF_FOUR,
        "varexj explain 2\nend return\nwhen true\nexample D\nout 1 3 ab\\0a\nwhen A | B\nexample B\nout 2 6 not d\\0a\nwhen !D\nexample C\ndone\n",
    ),
    (
        TICKET,
        "varexj explain 2\nend exit 3\nwhen S & G & C\nexample S,G,C,R\nend return\nwhen !S | !G | !C\nexample -\nout 1 5 thank\nerr 2 3 you\nwhen R & !(S & G & C)\nexample R\nout 3 3 end\nwhen R\nexample R\ndone\n",
    ),
];

/// The ends of that one alone.
const TICKET_ENDS: &str =
    "varexj explain 2\nend exit 3\nwhen S & G & C\nexample S,G,C,R\nend return\nwhen !S | !G | !C\nexample -\ndone\n";

/// Whether this is the text of a report's explanations, or of those of its ends.
fn is_text(alloc: Global, report: &Report, asked: Asked, text: &str) -> Result<bool, SpaceFault>
    requires lawful { IsLawful report.now }
    requires few { length report.now.options ≤ 64 }
{
    let mut space = BddSpace::new(alloc, report.options.len() as u32)?;
    let explanation = explain(alloc, &mut space, report, asked)?;
    let written = explanation_text(alloc, report, &explanation)?;
    Ok(written.as_slice() == text.as_bytes())
}

#[test]
fn explanations_of_reports(rt: HostRuntime) {
    for (report, text) in CASES {
        let report = report_of(&rt, rt.alloc(), report);
        assert!(rt; report.options.len() <= 64);
        assert!(rt;
            matches!(
                is_text(rt.alloc(), &report, Asked::Everything, text),
                Ok(true)
            ),
            "{}",
            text
        );
    }
}

#[test]
fn explanations_of_ends(rt: HostRuntime) {
    let report = report_of(&rt, rt.alloc(), TICKET);
    assert!(rt; report.options.len() <= 64);
    assert!(rt;
        matches!(
            is_text(rt.alloc(), &report, Asked::Ends, TICKET_ENDS),
            Ok(true)
        )
    );
}
