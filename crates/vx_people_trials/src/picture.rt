//! Pictures.

ghost use Rattle.vx_report_reader.specs.Lawful.{IsLawful};

use crate::reports::{MAIL, ODD, PLAIN, report_of};
use std::alloc::{AllocError, Global};
use vx_picture::{Drawn, picture, picture_text};
use vx_report::Report;

/// Reports with their pictures.
const CASES: [(&str, &str); 3] = [
    (
        PLAIN,
        "digraph report {\n2 [label=\"A\"];\n3 [label=\"A\"];\n1 [label=\"always\", shape=box];\n2 -> 1 [style=dashed];\n3 -> 1;\nend1 [label=\"end return\", shape=box];\nend1 -> 1;\npiece1 [label=\"out 1 2 0\\\\0a\", shape=box];\npiece1 -> 2;\npiece2 [label=\"out 2 2 1\\\\0a\", shape=box];\npiece2 -> 3;\n}\n",
    ),
    (
        MAIL,
        "digraph report {\n2 [label=\"SIGN\"];\n3 [label=\"MAIL\"];\n4 [label=\"ZIP\"];\n5 [label=\"SIGN\"];\n6 [label=\"MAIL\"];\n7 [label=\"ZIP\"];\n8 [label=\"SIGN\"];\n9 [label=\"MAIL\"];\n1 [label=\"always\", shape=box];\n2 -> 1;\n3 -> 2;\n4 -> 1 [style=dashed];\n5 -> 1 [style=dashed];\n5 -> 4;\n6 -> 5;\n7 -> 1;\n8 -> 7;\n9 -> 8;\nend2 [label=\"end uncaught java/lang/IllegalStateException\", shape=box];\nend2 -> 9;\nend1 [label=\"end return\", shape=box];\nend1 -> 6;\npiece1 [label=\"out 1 8 checked\\\\0a\", shape=box];\npiece1 -> 3;\n}\n",
    ),
    (
        ODD,
        "digraph report {\n2 [label=\"A\"];\n3 [label=\"B\"];\n4 [label=\"A\"];\n5 [label=\"A\"];\n1 [label=\"always\", shape=box];\n2 -> 1 [style=dashed];\n3 -> 1;\n4 -> 3;\n5 -> 1;\nend2 [label=\"end exit 3\", shape=box];\nend2 -> 4;\nend1 [label=\"end return\", shape=box];\nend1 -> 5;\npiece1 [label=\"out 1 4 a\\\\0a\", shape=box];\npiece1 -> 2;\npiece2 [label=\"err 2 61 012345678901234567890123456789012345678901234567890123456789\", shape=box];\npiece2 -> 4;\n}\n",
    ),
];

/// Reports with the picture of their ends, and with that of their first piece.
const PARTS: [(&str, &str, &str); 2] = [
    (
        MAIL,
        "digraph report {\n4 [label=\"ZIP\"];\n5 [label=\"SIGN\"];\n6 [label=\"MAIL\"];\n7 [label=\"ZIP\"];\n8 [label=\"SIGN\"];\n9 [label=\"MAIL\"];\n1 [label=\"always\", shape=box];\n4 -> 1 [style=dashed];\n5 -> 1 [style=dashed];\n5 -> 4;\n6 -> 5;\n7 -> 1;\n8 -> 7;\n9 -> 8;\nend2 [label=\"end uncaught java/lang/IllegalStateException\", shape=box];\nend2 -> 9;\nend1 [label=\"end return\", shape=box];\nend1 -> 6;\n}\n",
        "digraph report {\n2 [label=\"SIGN\"];\n3 [label=\"MAIL\"];\n1 [label=\"always\", shape=box];\n2 -> 1;\n3 -> 2;\npiece1 [label=\"out 1 8 checked\\\\0a\", shape=box];\npiece1 -> 3;\n}\n",
    ),
    (
        ODD,
        "digraph report {\n3 [label=\"B\"];\n4 [label=\"A\"];\n5 [label=\"A\"];\n1 [label=\"always\", shape=box];\n3 -> 1;\n4 -> 3;\n5 -> 1;\nend2 [label=\"end exit 3\", shape=box];\nend2 -> 4;\nend1 [label=\"end return\", shape=box];\nend1 -> 5;\n}\n",
        "digraph report {\n2 [label=\"A\"];\n1 [label=\"always\", shape=box];\n2 -> 1 [style=dashed];\npiece1 [label=\"out 1 4 a\\\\0a\", shape=box];\npiece1 -> 2;\n}\n",
    ),
];

/// Whether this is the text of a report's picture, or of that of a part of it.
fn is_text(alloc: Global, report: &Report, drawn: Drawn, text: &str) -> Result<bool, AllocError>
    requires { IsLawful report.now }
{
    let picture = picture(alloc, report, drawn)?;
    let written = picture_text(alloc, report, &picture)?;
    Ok(written.as_slice() == text.as_bytes())
}

#[test]
fn pictures_of_reports(rt: HostRuntime) {
    for (report, text) in CASES {
        let report = report_of(&rt, rt.alloc(), report);
        assert!(rt;
            matches!(is_text(rt.alloc(), &report, Drawn::All, text), Ok(true)),
            "{}",
            text
        );
    }
}

#[test]
fn pictures_of_parts(rt: HostRuntime) {
    for (report, ends, piece) in PARTS {
        let report = report_of(&rt, rt.alloc(), report);
        assert!(rt;
            matches!(is_text(rt.alloc(), &report, Drawn::Ends, ends), Ok(true)),
            "{}",
            ends
        );
        assert!(rt;
            matches!(
                is_text(rt.alloc(), &report, Drawn::Piece(1), piece),
                Ok(true)
            ),
            "{}",
            piece
        );
    }
}
