//! Comparisons of reports.

ghost use Rattle.std.specs.Prelude.{◌≡◌, ◌≤◌, length};
ghost use Rattle.vx_compare.specs.Names.{all_names};
ghost use Rattle.vx_report_reader.specs.Lawful.{IsLawful};

use std::alloc::Global;
use std::process::Abort;
use vx_bdd::BddSpace;
use vx_compare::{all_names, compare, compared_text, widened};
use vx_report::Report;
use vx_report_reader::read_report;
use vx_space::SpaceFault;
use vx_value::Name;

/// A program whose model allows what has MAIL on, that prints a line with SIGN on, and fails with SIGN and ZIP on.
const MAIL: &str =
    "varexj report 1\noptions 3\noption MAIL\noption SIGN\noption ZIP\nlimit 100\nrounds 9\nnode 2 1 0 1\nnode 3 0 0 2\nnode 4 2 1 0\nnode 5 1 1 4\nnode 6 0 0 5\nnode 7 2 0 1\nnode 8 1 0 7\nnode 9 0 0 8\nout 3 checked\\0a\nend 6 return\nend 9 uncaught java/lang/IllegalStateException\ndone\n";

/// The same with another line.
const LOUD: &str =
    "varexj report 1\noptions 3\noption MAIL\noption SIGN\noption ZIP\nlimit 100\nrounds 9\nnode 2 1 0 1\nnode 3 0 0 2\nnode 4 2 1 0\nnode 5 1 1 4\nnode 6 0 0 5\nnode 7 2 0 1\nnode 8 1 0 7\nnode 9 0 0 8\nout 3 checked!\\0a\nend 6 return\nend 9 uncaught java/lang/IllegalStateException\ndone\n";

/// The same where nothing fails, over the same options in another order and one more.
const MENDED: &str =
    "varexj report 1\noptions 4\noption SIGN\noption ZIP\noption MAIL\noption LOG\nlimit 100\nrounds 9\nnode 2 2 0 1\nnode 3 0 0 2\nout 3 checked\\0a\nend 2 return\ndone\n";

const FIRST: &str =
    "varexj report 1\noptions 1\noption A\nlimit 100\nrounds 4\nout 1 a\nerr 1 b\nend 1 return\ndone\n";

const SECOND: &str =
    "varexj report 1\noptions 1\noption A\nlimit 100\nrounds 4\nerr 1 b\nout 1 a\nend 1 return\ndone\n";

const HALF: &str =
    "varexj report 1\noptions 1\noption A\nlimit 100\nrounds 4\nnode 2 0 0 1\nout 2 a\nerr 2 b\nend 2 return\ndone\n";

/// Two reports, and where they differ.
const CASES: [(&str, &str, &str); 5] = [
    (MAIL, MAIL, "varexj compare 1\nof 4\ndiffer 0\ndone\n"),
    (
        MAIL,
        MENDED,
        "varexj compare 1\nof 8\ndiffer 2\nwhen SIGN & ZIP\nway uncaught java/lang/IllegalStateException\nother return\ncount 2\nwhen SIGN & ZIP\nexample MAIL,SIGN,ZIP\ndone\n",
    ),
    (
        MAIL,
        LOUD,
        "varexj compare 1\nof 4\ndiffer 2\nwhen SIGN\nway return\nother return\ncount 1\nwhen SIGN & !ZIP\nexample MAIL,SIGN\nline out 1\none checked\\0a\nother checked!\\0a\nway uncaught java/lang/IllegalStateException\nother uncaught java/lang/IllegalStateException\ncount 1\nwhen SIGN & ZIP\nexample MAIL,SIGN,ZIP\nline out 1\none checked\\0a\nother checked!\\0a\ndone\n",
    ),
    (
        FIRST,
        SECOND,
        "varexj compare 1\nof 2\ndiffer 2\nwhen true\nway return\nother return\ncount 2\nwhen true\nexample -\nmixed\ndone\n",
    ),
    (
        FIRST,
        HALF,
        "varexj compare 1\nof 2\ndiffer 1\nwhen !A\nway return\nother -\ncount 1\nwhen !A\nexample -\ndone\n",
    ),
];

/// Whether this is the text of the comparison of two reports over the options of both.
fn is_comparison_over(
    alloc: Global,
    one: Report,
    other: Report,
    names: &[Name],
    text: &str,
) -> Result<bool, SpaceFault>
    requires one { IsLawful one }
    requires other { IsLawful other }
    requires names { names.now ≡ all_names one.options other.options }
    requires few { length names.now ≤ 64 }
{
    let mut space = BddSpace::new(alloc, names.len() as u32)?;
    let one = widened(alloc, &mut space, one, names)?;
    let other = widened(alloc, &mut space, other, names)?;
    let compared = compare(alloc, &mut space, &one, &other)?;
    let written = compared_text(alloc, &one, &compared)?;
    Ok(written.as_slice() == text.as_bytes())
}

/// Whether this is the text of the comparison of two reports.
fn is_comparison(alloc: Global, one: Report, other: Report, text: &str) -> Result<bool, SpaceFault>
    requires one { IsLawful one }
    requires other { IsLawful other }
{
    let names = all_names(alloc, one.options.as_slice(), other.options.as_slice())?;
    if names.len() > 64 {
        return Ok(false);
    }
    is_comparison_over(alloc, one, other, names.as_slice(), text)
}

/// A report of a text.
fn report_of(rt: &impl Abort, alloc: Global, text: &str) -> Report
    ensures { IsLawful result }
{
    read_report(alloc, text.as_bytes()).expect(rt, "a report")
}

#[test]
fn comparisons_of_reports(rt: HostRuntime) {
    for (one, other, text) in CASES {
        let one = report_of(&rt, rt.alloc(), one);
        let other = report_of(&rt, rt.alloc(), other);
        assert!(rt;
            matches!(is_comparison(rt.alloc(), one, other, text), Ok(true)),
            "{}",
            text
        );
    }
}
