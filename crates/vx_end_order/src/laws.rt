//! The laws of the order of ends.

ghost use Rattle.std.specs.Cmp.{IsTotalOrder};
ghost use Rattle.vx_value.specs.Ends.{compare_ends};
ghost use Rattle.vx_end_order.specs.Exact.{TellsApart};

/// The order of ends in a report is total, and tells all ends apart.
pub fn ends_are_ordered()
    ensures total { IsTotalOrder compare_ends }
    ensures exact { TellsApart compare_ends }
{}
