//! The law of the text.

ghost use Rattle.vx_spots.specs.Law.{EndsAreTold};

use vx_may_end::all_listed;

/// The text of the spots of a program that class files link to names the place of each end of a run that is one as unsupported.
pub fn ends_are_told()
    ensures { EndsAreTold }
{
    all_listed();
}
