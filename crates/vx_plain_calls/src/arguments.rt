//! The arguments of a call, which stand on the operands with the last one on top (JVMS 2.6.2, 6.5).

ghost use Rattle.std.specs.Prelude.{◌≡◌, ◌++◌, ◌∷◌, [], IfOk, OnOk, drop, length, option_map};
ghost use Rattle.vx_java.specs.Calls.{arguments_off, in_locals};
ghost use Rattle.vx_plain.specs.Views.{state_of, value_of, values_of};

use std::alloc::{AllocError, Global};
use vx_desc::JavaType;
use vx_plain::{State, Value};
use vx_plain_here::{are_matching, values_on_top};

/// The arguments of these types, the deepest first; `None` where one lacks or is not of its type's sort.
#[tactic(auto, using(vx_plain_here::proofs::Matching::as_many, crate::proofs::ArgumentLaws::all_given, crate::proofs::ArgumentLaws::one_differs, crate::proofs::ArgumentLaws::one_lacks))]
pub(crate) fn arguments_on(
    alloc: Global,
    state: &State,
    types: &[JavaType],
) -> Result<Option<Vec<Value>>, AllocError>
    ensures { IfOk result (λ found. option_map (λ values. (values_of values.items, drop (length values.items) (state_of state.now).top.operands)) found ≡ arguments_off types.now (state_of state.now).top.operands) }
{
    let Some(values) = values_on_top(state, types.len()) else {
        return Ok(None);
    };
    if !are_matching(types, values) {
        return Ok(None);
    }
    Ok(Some(Vec::from_slice(alloc, values)?))
}

/// Puts a value into the locals: a long takes two.
fn put_local(locals: &mut Vec<Value>, value: Value) -> Result<(), AllocError>
    ensures { OnOk result (values_of locals.new.items ≡ values_of locals.old.items ++ in_locals (value_of value ∷ [])) }
{
    locals.push(value)?;
    match value {
        Value::Long(_) => {
            locals.push(Value::Top)?;
            Ok(())
        }
        Value::Int(_) => Ok(()),
        Value::Null => Ok(()),
        Value::Ref(_) => Ok(()),
        Value::Top => Ok(()),
    }
}

/// The locals that values take: two for a long.
#[tactic(auto, using(crate::proofs::ArgumentLaws::local_put))]
pub(crate) fn in_locals(alloc: Global, values: &[Value]) -> Result<Vec<Value>, AllocError>
    ensures { IfOk result (λ locals. values_of locals.items ≡ in_locals (values_of values.now)) }
{
    let mut locals = Vec::new(alloc);
    for value in values {
        put_local(&mut locals, *value)?;
    }
    Ok(locals)
}
