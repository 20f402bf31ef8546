//! The law of lacks.

ghost use Rattle.vx_may_end.specs.Listed.{AllListed};

/// Classes that were read, linked with the core classes, make a program of which each run that ends as unsupported ends so at a spot
/// that is listed, for the lack that is listed there.
pub fn all_listed()
    ensures { AllListed }
{}
