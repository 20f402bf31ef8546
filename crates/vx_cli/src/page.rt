//! The pages that the program writes of itself: how it is called, and its version.

ghost use Rattle.std.specs.Prelude.{◌≡◌, MatchResult};
ghost use Rattle.vx_cli.specs.Pages.{page_text};

use std::alloc::Global;
use vx_plans::Status;

/// A page.
#[derive(Clone, Copy)]
pub enum Page {
    /// The commands, their words and the exit codes.
    Help,
    Version,
}

const HELP: &[u8] =
    b"varexj runs a configurable Java program once for all settings of its options.\n\
\n\
\x20 varexj doctor FOLDER MODEL MAIN  what a program and a model have and lack, before a run\n\
\x20 varexj run FOLDER MODEL MAIN LIMIT [1|2]  the report: each piece of output and each\n\
\x20                                           end of a run, with its configurations\n\
\x20 varexj watch FOLDER MODEL MAIN LIMIT [1|2]  the same, and on the standard error how far\n\
\x20                                             it has come, each 100,000 rounds\n\
\x20 varexj project REPORT CONFIG     what a report says of one configuration\n\
\x20 varexj output REPORT CONFIG [out|err]  the bytes that one configuration prints\n\
\x20 varexj explain REPORT [ends]     its ends and pieces, or ends, with rules and examples\n\
\x20 varexj check REPORT [EXPECTED]   which configurations end otherwise than they should\n\
\x20 varexj count REPORT              how many configurations have each end and piece\n\
\x20 varexj list REPORT [N]           its first N configurations, or 1000, with their ends\n\
\x20 varexj cover REPORT              configurations that show each end and piece\n\
\x20 varexj interact REPORT           on which options its ends and pieces depend\n\
\x20 varexj picture REPORT [ends|N]   a diagram of it, its ends or piece N, for Graphviz\n\
\x20 varexj page REPORT               a page that shows it in a browser\n\
\x20 varexj agree REPORT OTHER        where two reports say the same\n\
\x20 varexj compare REPORT OTHER      where two reports differ, and how\n\
\x20 varexj join REPORT OTHER..       one report out of several, of parts of a model\n\
\x20 varexj asm SOURCE                the class file that a source names\n\
\x20 varexj load SEED OPTIONS         the size of a report of a program made for trials\n\
\x20 varexj verify FOLDER MODEL MAIN  whether each method has a typing\n\
\x20 varexj replay FOLDER MODEL MAIN LIMIT CONFIG  how one configuration runs, and the lines\n\
\x20                                               of source where it ends\n\
\x20 varexj trace FOLDER MODEL MAIN LIMIT CONFIG   the stack trace of its end, as in Java\n\
\x20 varexj cut MODEL A,B|N [REPORT]  models that divide what MODEL allows, by options A\n\
\x20                                  and B, or by N options\n\
\x20 varexj --help, varexj --version  this page, and the version\n\
\n\
FOLDER  a folder of class files of Java 8 or before\n\
MODEL   the options and their rules, as text, or as DIMACS in a .cnf or .dimacs file\n\
MAIN    the class whose main runs\n\
LIMIT   the greatest number of instructions tried in one configuration\n\
CONFIG  the names of the options that are on, joined by commas, or - for none\n\
EXPECTED  lines END when RULE, where configurations end otherwise than by return or exit 0\n\
SEED    a number below 2^64, by which the program made for trials differs\n\
OPTIONS how many options that program has, from 1 to 64\n\
\n\
Exit codes, with one line on the standard error for each but 0:\n\
\x20 0 done          4 write fault        8 bad link      12 bad source\n\
\x20 1 no memory     5 bad model         10 bad report    13 too large\n\
\x20 2 usage         6 no configuration  11 not allowed   14 unlike\n\
\x20 3 read fault    7 bad class         15 failing       17 bad expected\n\
\x20                                     16 differing     18 not joinable\n\
\n\
Example: varexj run classes shop.cnf shop.Main 100000 > shop.report\n\
\x20        varexj explain shop.report\n";

const VERSION: &[u8] = b"varexj 0.10\n";

fn text_of(page: Page) -> &'static [u8]
    ensures { result.now ≡ page_text page }
{
    match page {
        Page::Help => HELP,
        Page::Version => VERSION,
    }
}

/// The text of a page. Where there is none, memory was wanting.
pub fn text_of_page(alloc: Global, page: Page) -> Result<Vec<u8>, Status>
    ensures { MatchResult result (λ text. text.items ≡ page_text page) (λ status. status ≡ Status.NoMemory) }
{
    Ok(Vec::from_slice(alloc, text_of(page))?)
}
