//! The law of remarks.

ghost use Rattle.vx_overview.specs.Remarks.{RemarksAreExact};

/// A comment that begins as a name line does is remarked exactly where it is no name line.
pub fn remarks_are_exact()
    ensures { RemarksAreExact }
{}
