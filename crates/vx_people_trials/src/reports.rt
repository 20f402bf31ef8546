//! Reports.

ghost use Rattle.vx_report_reader.specs.Lawful.{IsLawful};

use std::alloc::Global;
use std::process::Abort;
use vx_report::Report;
use vx_report_reader::read_report;

/// A program that prints the value of its one option.
pub const PLAIN: &str =
    "varexj report 1\noptions 1\noption A\nlimit 100\nrounds 4\nnode 2 0 1 0\nnode 3 0 0 1\nout 2 0\\0a\nout 3 1\\0a\nend 1 return\ndone\n";

/// A program whose model allows what has MAIL on, that prints a line with SIGN on, and fails with SIGN and ZIP on.
pub const MAIL: &str =
    "varexj report 1\noptions 3\noption MAIL\noption SIGN\noption ZIP\nlimit 100\nrounds 9\nnode 2 1 0 1\nnode 3 0 0 2\nnode 4 2 1 0\nnode 5 1 1 4\nnode 6 0 0 5\nnode 7 2 0 1\nnode 8 1 0 7\nnode 9 0 0 8\nout 3 checked\\0a\nend 6 return\nend 9 uncaught java/lang/IllegalStateException\ndone\n";

/// Two ends, of which the second is had only where the first isn't, a piece that no configuration with an end has, a piece of
/// several lines, a long one, and numbers of attempts with a node of their own.
pub const ODD: &str =
    "varexj report 2\noptions 2\noption A\noption B\nlimit 100\nrounds 4\nnode 2 0 1 0\nnode 3 1 0 1\nnode 4 0 0 3\nnode 5 0 0 1\nnode 6 1 1 0\nout 2 a\\0ab\\0a\nerr 4 0123456789012345678901234567890123456789012345678901234567890\nend 5 return\nend 4 exit 3\nattempts 6 3\nattempts 3 4\ndone\n";

/// A piece that a configuration has where an odd number of its seven options is on, so that each rule for it in terms has 64 of
/// them.
pub const PARITY: &str =
    "varexj report 1\noptions 7\noption A\noption B\noption C\noption D\noption E\noption F\noption G\nlimit 100\nrounds 4\nnode 2 6 0 1\nnode 3 6 1 0\nnode 4 5 2 3\nnode 5 5 3 2\nnode 6 4 4 5\nnode 7 4 5 4\nnode 8 3 6 7\nnode 9 3 7 6\nnode 10 2 8 9\nnode 11 2 9 8\nnode 12 1 10 11\nnode 13 1 11 10\nnode 14 0 12 13\nout 14 x\nend 1 return\ndone\n";

/// A program whose model allows one of four options, and which prints a line for the first or the second, and one for all but the last.
pub const ONE_OF_FOUR: &str =
    "varexj report 1\noptions 4\noption A\noption B\noption C\noption D\nlimit 100\nrounds 4\nnode 2 3 1 0\nnode 3 2 2 0\nnode 4 1 0 3\nnode 5 1 3 0\nnode 6 0 4 5\nnode 7 2 0 2\nnode 8 1 7 3\nnode 9 0 8 5\nnode 10 3 0 1\nnode 11 2 10 2\nnode 12 1 11 3\nnode 13 0 12 5\nout 6 ab\\0a\nout 9 not d\\0a\nend 13 return\ndone\n";

/// A program whose model demands R of who has C, that fails where S, G and C are on, and otherwise prints two pieces where R is, one behind
/// the other.
pub const TICKET: &str =
    "varexj report 1\noptions 4\noption S\noption G\noption C\noption R\nlimit 100\nrounds 4\nnode 2 3 0 1\nnode 3 2 2 0\nnode 4 1 2 3\nnode 5 0 2 4\nnode 6 2 1 2\nnode 7 2 1 0\nnode 8 1 6 7\nnode 9 0 6 8\nnode 10 2 0 2\nnode 11 1 0 10\nnode 12 0 0 11\nout 5 thank\nerr 5 you\nout 2 end\nend 9 return\nend 12 exit 3\ndone\n";

/// A program with 64 options, whose last one prints, and with no rules.
pub const WIDE: &str =
    "varexj report 1\noptions 64\noption A0\noption A1\noption A2\noption A3\noption A4\noption A5\noption A6\noption A7\noption A8\noption A9\noption A10\noption A11\noption A12\noption A13\noption A14\noption A15\noption A16\noption A17\noption A18\noption A19\noption A20\noption A21\noption A22\noption A23\noption A24\noption A25\noption A26\noption A27\noption A28\noption A29\noption A30\noption A31\noption A32\noption A33\noption A34\noption A35\noption A36\noption A37\noption A38\noption A39\noption A40\noption A41\noption A42\noption A43\noption A44\noption A45\noption A46\noption A47\noption A48\noption A49\noption A50\noption A51\noption A52\noption A53\noption A54\noption A55\noption A56\noption A57\noption A58\noption A59\noption A60\noption A61\noption A62\noption A63\nlimit 100\nrounds 4\nnode 2 63 0 1\nout 2 x\nend 1 return\ndone\n";

/// A report of a text.
pub fn report_of(rt: &impl Abort, alloc: Global, text: &str) -> Report
    ensures { IsLawful result }
{
    read_report(alloc, text.as_bytes()).expect(rt, "a report")
}
