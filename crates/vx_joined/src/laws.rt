//! What is said of a program's runs by the join of their reports.

ghost use Rattle.vx_joined.specs.Law.{JoinsAreRuns, ReportedAreRuns};

/// The report that `run` writes says at each allowed configuration the run there, and holds no other one.
pub fn reported_are_runs()
    ensures { ReportedAreRuns }
{}

/// The law of joins: where each of several reports says the runs of one program at what it allows, over the same options, limit and
/// version, their join says the runs at what any of them allows, and holds no other configuration. The reports may overlap.
pub fn joins_are_runs()
    ensures { JoinsAreRuns }
{}
