//! Initialisation of classes.

ghost use Rattle.vx_computed.specs.Initialisers.{TwoPlaces, FailingInitialiser, OptionInitialiser, SuperclassFirst, WrappedException, BlockingInterface};

/// Initialisation of classes.
pub fn initialising_runs()
    // A class that is initialised at different places.
    ensures two_places { TwoPlaces }
    // An initialiser that throws in one configuration.
    ensures failing_initialiser { FailingInitialiser }
    // The initialiser of the class of an option keeps it.
    ensures option_initialiser { OptionInitialiser }
    // The superclass is initialised first.
    ensures superclass_first { SuperclassFirst }
    // An exception that leaves two initialisations.
    ensures wrapped_exception { WrappedException }
    // A blocking interface.
    ensures blocking_interface { BlockingInterface }
{}
