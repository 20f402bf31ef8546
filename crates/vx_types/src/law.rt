//! The law that the rows are monotone, and what makes a program ranked.

ghost use Rattle.vx_types.specs.Law.{FlowIsMonotone, RanksAreRanked};

/// The law of the rows: where types fit others that an instruction takes, it takes them too, leads to the same positions, and makes types
/// that fit those that it makes of the others (JVMS 4.10.2.2).
pub fn flow_is_monotone()
    ensures { FlowIsMonotone }
{}

/// A program in which each class has a number above that of its superclass, below the number of classes, is ranked: nothing is above
/// itself (JVMS 5.3.5).
pub fn ranks_are_ranked()
    ensures { RanksAreRanked }
{}
