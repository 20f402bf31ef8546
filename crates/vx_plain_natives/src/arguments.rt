//! The arguments of a call of a native method, as they stand on the operands.

ghost use Rattle.std.specs.Prelude.{◌≡◌, ◌≤◌, ◌++◌, ◌∷◌, [], IfOk, IfSome, drop, length, option_map, reverse, take};
ghost use Rattle.vx_java.specs.Natives.{are_wanted, as_read, is_wanted, room_for};
ghost use Rattle.vx_link.specs.ClassNames.{class_of_type};
ghost use Rattle.vx_link.specs.Signature.{signature};
ghost use Rattle.vx_plain.specs.Views.{state_of, value_of, values_of};
ghost use Rattle.vx_plain_here.specs.Rows.{here_in};
ghost use Rattle.vx_plain_strings.specs.Answers.{listed};
ghost use Rattle.vx_plain_natives.specs.Arguments.{read_by};

use std::alloc::AllocError;
use vx_desc::JavaType;
use vx_java::class_of_type;
use vx_link::LinkedMethod;
use vx_plain::{State, Value, held};
use vx_plain_here::{Here, narrowed, values_on_top};
use vx_plain_strings::Arguments;
use vx_references::fields::width_of;

// ---- what is asked of them

/// Whether a value is of the class of a type of a descriptor.
fn is_wanted(
    here: &Here<'_>,
    state: &State,
    descriptor: &[u8],
    item: &JavaType,
    value: Value,
) -> bool
    ensures { let h = here_in here.now (state_of state.now) in result ≡ is_wanted h (class_of_type h.program descriptor.now item.now) (value_of value) }
{
    match class_of_type(here.program, descriptor, item) {
        Some(class) => here.is_instance(state, class, value),
        None => true,
    }
}

/// Whether each value is of the class of its type.
#[tactic(auto, using(crate::proofs::Given::one_wanted, crate::proofs::Given::one_unwanted, crate::proofs::Given::all_wanted))]
fn are_wanted(
    here: &Here<'_>,
    state: &State,
    descriptor: &[u8],
    types: &[JavaType],
    values: &[Value],
) -> bool
    requires { length types.now ≡ length values.now }
    ensures { result ≡ are_wanted (here_in here.now (state_of state.now)) descriptor.now types.now (values_of values.now) }
{
    for place in 0..types.len() {
        if !is_wanted(here, state, descriptor, &types[place], values[place]) {
            return false;
        }
    }
    true
}

/// Whether the result has room where so many operands are taken off.
fn has_room(here: &Here<'_>, state: &State, answer: Option<JavaType>, taken: usize) -> bool
    ensures { let s = state_of state.now in result ≡ room_for (here_in here.now s) answer (drop taken s.top.operands) }
{
    match answer {
        Some(answer) => here.has_room(state, width_of(answer) as usize, taken),
        None => true,
    }
}

// ---- reading them

/// The arguments with one more behind them, where there are not too many.
fn with_value(arguments: Arguments, value: Value) -> Option<Arguments>
    ensures { IfSome result (λ more. listed more ≡ listed arguments ++ value_of value ∷ []) }
{
    match arguments {
        Arguments::Nothing => Some(Arguments::One(value)),
        Arguments::One(a) => Some(Arguments::Two(a, value)),
        Arguments::Two(a, b) => Some(Arguments::Three(a, b, value)),
        Arguments::Three(a, b, c) => Some(Arguments::Four(a, b, c, value)),
        Arguments::Four(a, b, c, d) => Some(Arguments::Five(a, b, c, d, value)),
        Arguments::Five(..) => None,
    }
}

/// The arguments with one more behind them. More than five are not held.
fn with_more(arguments: Arguments, value: Value) -> Result<Arguments, AllocError>
    ensures { IfOk result (λ more. listed more ≡ listed arguments ++ value_of value ∷ []) }
{
    held(with_value(arguments, value))
}

/// The values behind the first ones, each as a store to a field of its type would narrow it. More than five are not held.
#[tactic(auto, using(crate::proofs::Given::one_read, crate::proofs::Given::all_read))]
fn as_read(first: Arguments, types: &[JavaType], values: &[Value]) -> Result<Arguments, AllocError>
    requires { length types.now ≡ length values.now }
    ensures { IfOk result (λ read. listed read ≡ listed first ++ as_read types.now (values_of values.now)) }
{
    let mut read = first;
    for place in 0..types.len() {
        read = with_more(read, narrowed(types[place], values[place]))?;
    }
    Ok(read)
}

/// The receiver, where there is one, and the arguments as they are read, where these are of their classes and the result has room.
fn read_by(
    here: &Here<'_>,
    state: &State,
    method: &LinkedMethod,
    types: &[JavaType],
    answer: Option<JavaType>,
    receiver: Arguments,
    values: &[Value],
    taken: usize,
) -> Result<Option<Arguments>, AllocError>
    requires types { types.now ≡ (signature method.now.descriptor).arguments }
    requires answer { answer ≡ (signature method.now.descriptor).result }
    requires many { length types.now ≡ length values.now }
    ensures { let s = state_of state.now in IfOk result (λ read. option_map listed read ≡ read_by (here_in here.now s) method.now (listed receiver) (values_of values.now) (drop taken s.top.operands)) }
{
    if are_wanted(here, state, method.descriptor.bytes(), types, values)
        && has_room(here, state, answer, taken)
    {
        let read = as_read(receiver, types, values)?;
        return Ok(Some(read));
    }
    Ok(None)
}

/// What is read of the arguments on top, which are enough.
#[tactic(auto, using(vx_plain_here::proofs::Matching::as_many))]
pub(crate) fn read_on_top(
    here: &Here<'_>,
    state: &State,
    method: &LinkedMethod,
    types: &[JavaType],
    answer: Option<JavaType>,
    receiver: Arguments,
    taken: usize,
) -> Result<Option<Arguments>, AllocError>
    requires types { types.now ≡ (signature method.now.descriptor).arguments }
    requires answer { answer ≡ (signature method.now.descriptor).result }
    requires many { length types.now ≤ length (state_of state.now).top.operands }
    ensures { let s = state_of state.now in IfOk result (λ read. option_map listed read ≡ read_by (here_in here.now s) method.now (listed receiver) (reverse (take (length types.now) s.top.operands)) (drop taken s.top.operands)) }
{
    match values_on_top(state, types.len()) {
        Some(values) => read_by(here, state, method, types, answer, receiver, values, taken),
        None => Ok(None),
    }
}
