//! Many configurations.

ghost use Rattle.vx_computed.specs.Many.{WorkloadOfThree, WorkloadOfSix};

/// Programs that share their work: the rounds grow with the options, the configurations with their power.
pub fn many_configurations()
    // 3 options, with a call by the class of the receiver for each.
    ensures workload_of_three { WorkloadOfThree }
    // 6 options, with a call by the class of the receiver for each.
    ensures workload_of_six { WorkloadOfSix }
{}
