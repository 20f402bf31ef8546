//! Types whose values are told apart by their order.

ghost use Rattle.std.specs.Prelude.{◌≡◌};
ghost use Rattle.std.specs.Cmp.{IsTotalOrder, nat_cmp_total};
ghost use Rattle.std.specs.Ordering.{nat_cmp};
ghost use Rattle.std.specs.declared.cmp.Ordering.{Ordering};
ghost use Rattle.std.specs.declared.cmp.Ordering.TheVariants.{Equal};
ghost use Rattle.std.proofs.lemmas.Map.Lookups.{exact_unsigned};
ghost use Rattle.vx_value.specs.Ends.{compare_ends};
ghost use Rattle.vx_end_order.proofs.EndOrder.{end_equal, end_total};

use std::cmp::Ordering;
use vx_value::End;

/// A type with a total order in which a value is equal to itself alone.
pub trait Ranked {
    ghost order: { Self → Self → Ordering };

    /// How the two compare.
    fn compare(&self, other: &Self) -> Ordering
        ensures { result ≡ order self.now other.now };

    ghost total: { IsTotalOrder order };

    ghost exact: { (a b : Self) → order a b ≡ Equal → a ≡ b };
}

impl Ranked for u64 {
    ghost order = { nat_cmp };

    fn compare(&self, other: &u64) -> Ordering {
        self.cmp(other)
    }

    ghost total = { nat_cmp_total };

    ghost exact = { exact_unsigned };
}

impl Ranked for End {
    ghost order = { compare_ends };

    fn compare(&self, other: &End) -> Ordering {
        End::compare(self, other)
    }

    ghost total = { end_total };

    ghost exact = { end_equal };
}
