//! The law of lockstep.

ghost use Rattle.vx_java.specs.Report.{LockstepIsRuns};

/// The law of lockstep: what the report of all configurations, run side by side, says of an allowed one is the output, the end
/// and the number of attempts of its own run. In version 1 the report has no numbers of attempts, and says the rest.
pub fn lockstep_is_runs()
    ensures { LockstepIsRuns }
{}
