//! Branches by options.

ghost use Rattle.vx_computed.specs.Branches.{OneOption, BranchesMeet, OneUnfinished, BothUnfinished, EqualValues, EndlessLoop, FloatInOne, FourOptions};

/// Branches by options: runs that part, that meet again, and that end apart.
pub fn branching_runs()
    // The value of an option is written.
    ensures one_option { OneOption }
    // Two branches that meet again.
    ensures branches_meet { BranchesMeet }
    // One configuration ends, the other has used its attempts.
    ensures one_unfinished { OneUnfinished }
    // Neither ends.
    ensures both_unfinished { BothUnfinished }
    // The same value in both branches, with the attempts.
    ensures equal_values { EqualValues }
    // An endless loop in one configuration.
    ensures endless_loop { EndlessLoop }
    // A float instruction in one configuration.
    ensures float_in_one { FloatInOne }
    // A condition on four options.
    ensures four_options { FourOptions }
{}
