//! The arguments of a call, which stand on the operands with the last one on top (JVMS 2.6.2, 6.5).

ghost use Rattle.std.specs.Prelude.{◌≡◌, ◌<◌, ◌≤◌, MatchOption, length, reverse, take};
ghost use Rattle.vx_plain.specs.Views.{state_of, values_of};
ghost use Rattle.vx_plain_here.specs.Arguments.{all_fit};

use crate::values::fits;
use vx_desc::JavaType;
use vx_plain::{State, Value};

/// So many operands on top, the deepest first; `None` where there are fewer.
#[tactic(auto, using(crate::proofs::Matching::on_top, crate::proofs::Matching::too_few, crate::proofs::Matching::enough), unfolding(vx_plain::specs::Views::state_of))]
pub fn values_on_top(state: &State, count: usize) -> Option<&[Value]>
    ensures { let operands = (state_of state.now).top.operands in MatchOption result (length operands < count) (λ values. (values_of values.now ≡ reverse (take count operands)) × (count ≤ length operands)) }
{
    let operands = state.top.operands.as_slice();
    if count > operands.len() {
        return None;
    }
    let (_, values) = operands.split_at(operands.len() - count);
    Some(values)
}

/// Whether each value is of the sort of its type.
#[tactic(auto, using(crate::proofs::Matching::one_matches, crate::proofs::Matching::one_differs, crate::proofs::Matching::all_match))]
pub fn are_matching(types: &[JavaType], values: &[Value]) -> bool
    requires { length types.now ≡ length values.now }
    ensures { result ≡ all_fit types.now (values_of values.now) }
{
    for place in 0..types.len() {
        if !fits(types[place], values[place]) {
            return false;
        }
    }
    true
}
