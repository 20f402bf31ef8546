//! What carrying out a native method asks first.

ghost use Rattle.std.specs.Prelude.{◌≡◌, ◌≤◌, IfOk, drop, length, reverse, take};
ghost use Rattle.vx_class.specs.Members.{STATIC};
ghost use Rattle.vx_java.specs.Natives.{apply, apply_to, carried_out, native_of};
ghost use Rattle.vx_link.specs.Parts.{has};
ghost use Rattle.vx_link.specs.Signature.{signature};
ghost use Rattle.vx_plain.specs.Views.{state_of};
ghost use Rattle.vx_plain_here.specs.Arguments.{are_on_top};
ghost use Rattle.vx_plain_here.specs.Rows.{ComesTo, here_in};
ghost use Rattle.vx_plain_strings.specs.Answers.{listed};

use crate::arguments::read_on_top;
use crate::table::by_number;
use bitflags::Flags;
use vx_desc::JavaType;
use vx_link::{AccessFlags, LinkedMethod};
use vx_plain::State;
use vx_plain_here::{Here, Made, are_matching, values_on_top};
use vx_plain_strings::{Arguments, Call};

/// Does what a native method does with its arguments.
fn do_native(
    here: &Here<'_>,
    state: &mut State,
    method: &LinkedMethod,
    values: Arguments,
    taken: usize,
) -> Made
    ensures { let s = state_of state.old in IfOk result (ComesTo (native_of method.now.native (here_in here.now s) (listed values) (drop taken s.top.operands)) s (state_of state.new)) }
{
    let call = Call {
        here,
        values,
        taken,
    };
    by_number(&call, state, method.native)
}

/// Carries out a method whose arguments are of the sorts of their types, behind a receiver where there is one. So many operands on top are these.
fn apply(
    here: &Here<'_>,
    state: &mut State,
    method: &LinkedMethod,
    types: &[JavaType],
    answer: Option<JavaType>,
    receiver: Arguments,
    taken: usize,
) -> Made
    requires types { types.now ≡ (signature method.now.descriptor).arguments }
    requires answer { answer ≡ (signature method.now.descriptor).result }
    requires many { length types.now ≤ length (state_of state.old).top.operands }
    ensures { let s = state_of state.old in IfOk result (ComesTo (apply (here_in here.now s) method.now (listed receiver) (reverse (take (length types.now) s.top.operands)) (drop taken s.top.operands)) s (state_of state.new)) }
{
    let read = read_on_top(here, state, method, types, answer, receiver, taken)?;
    match read {
        Some(values) => do_native(here, state, method, values, taken),
        None => here.illegal(state),
    }
}

/// Carries out a method on the receiver under its arguments, which is of the method's own class.
fn apply_to(
    here: &Here<'_>,
    state: &mut State,
    method: &LinkedMethod,
    types: &[JavaType],
    answer: Option<JavaType>,
) -> Made
    requires types { types.now ≡ (signature method.now.descriptor).arguments }
    requires answer { answer ≡ (signature method.now.descriptor).result }
    requires many { length types.now ≤ length (state_of state.old).top.operands }
    ensures { let s = state_of state.old in IfOk result (ComesTo (apply_to (here_in here.now s) method.now (reverse (take (length types.now) s.top.operands)) (drop (length types.now) s.top.operands)) s (state_of state.new)) }
{
    let count = types.len();
    match state.operand(count) {
        Some(receiver) => {
            if here.is_instance(state, method.class, receiver) {
                apply(
                    here,
                    state,
                    method,
                    types,
                    answer,
                    Arguments::One(receiver),
                    count + 1,
                )
            } else {
                here.illegal(state)
            }
        }
        None => here.illegal(state),
    }
}

/// Whether a method has no receiver.
fn is_static(method: &LinkedMethod) -> bool
    ensures { result ≡ has STATIC method.now.flags }
{
    method.flags.contains(AccessFlags::STATIC)
}

/// Whether the arguments stand on top, each of the sort of its type.
#[tactic(auto, using(vx_plain_here::proofs::Matching::as_many, vx_plain_here::proofs::Matching::there_by, vx_plain_here::proofs::Matching::not_there_by))]
fn are_there(state: &State, types: &[JavaType]) -> bool
    ensures { let operands = (state_of state.now).top.operands in result ≡ are_on_top types.now operands }
{
    match values_on_top(state, types.len()) {
        Some(values) => are_matching(types, values),
        None => false,
    }
}

/// Carries out a native method at the call that stands where the frame on top does, where its arguments still stand. The types are
/// those of its descriptor.
#[tactic(auto, using(vx_plain_here::proofs::Matching::are_many))]
pub fn carry_out(
    here: &Here<'_>,
    state: &mut State,
    method: &LinkedMethod,
    types: &[JavaType],
    answer: Option<JavaType>,
) -> Made
    requires types { types.now ≡ (signature method.now.descriptor).arguments }
    requires answer { answer ≡ (signature method.now.descriptor).result }
    ensures { let s = state_of state.old in IfOk result (ComesTo (carried_out (here_in here.now s) method.now) s (state_of state.new)) }
{
    if !are_there(state, types) {
        return here.illegal(state);
    }
    if is_static(method) {
        apply(
            here,
            state,
            method,
            types,
            answer,
            Arguments::Nothing,
            types.len(),
        )
    } else {
        apply_to(here, state, method, types, answer)
    }
}
