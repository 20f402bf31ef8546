//! The law of one report: what a report says leaves no choice.
#![tactic(auto)]

ghost use Rattle.vx_one_report.specs.Law.{ReportsAreOne};

/// The law of one report: two reports whose nodes are in the numbering, and which say the same of each configuration of their
/// options, line by line, are one report, with the same nodes under the same numbers.
pub fn reports_are_one()
    ensures { ReportsAreOne }
{}
