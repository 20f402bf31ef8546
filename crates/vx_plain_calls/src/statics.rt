//! Calls of static methods (JVMS 6.5 invokestatic).

ghost use Rattle.std.specs.Prelude.{◌≡◌, IfOk, drop, length};
ghost use Rattle.vx_java.specs.Calls.{call_static, carry_out};
ghost use Rattle.vx_java.specs.Initialisation.{when_initialised};
ghost use Rattle.vx_java.specs.Selection.{selected_if_concrete};
ghost use Rattle.vx_link.specs.Names.{member};
ghost use Rattle.vx_link.specs.Parts.{method_at};
ghost use Rattle.vx_plain.specs.Views.{state_of, values_of};
ghost use Rattle.vx_plain_here.specs.Rows.{ComesTo, here_in};

use crate::arguments::arguments_on;
use crate::entering::carry_out;
use vx_java::parts::class_of_method;
use vx_java::selected_if_concrete;
use vx_plain::{State, Value};
use vx_plain_here::{Here, Made};
use vx_plain_ready::ready;
use vx_plain_tables::{Seen, signature_in};
use vx_value::MethodId;

/// Carries out a static method, once its class is ready.
fn call_ready(here: &Here<'_>, state: &mut State, resolved: MethodId, values: &[Value]) -> Made
    ensures { let h = here_in here.now (state_of state.old) in IfOk result (ComesTo (when_initialised h (method_at h.program resolved.0).class.0 (λ g. carry_out g (values_of values.now) (drop (length values.now) h.state.top.operands) (selected_if_concrete g.program resolved.0))) h.state (state_of state.new)) }
{
    let class = class_of_method(here.program, resolved);
    let made = ready(here, state, class)?;
    match made {
        Some(outcome) => Ok(outcome),
        None => {
            let selected = selected_if_concrete(here.program, resolved);
            carry_out(here, state, values, values.len(), selected)
        }
    }
}

/// A call of a static method.
pub(crate) fn call_static(
    seen: &Seen<'_>,
    state: &mut State,
    index: u16,
    resolved: MethodId,
) -> Made
    ensures { let h = here_in seen.now.here (state_of state.old) in IfOk result (ComesTo (call_static h (member h.pool index) resolved.0) h.state (state_of state.new)) }
{
    let signature = signature_in(seen.here.alloc, seen.here.pool, index)?;
    let found = arguments_on(seen.here.alloc, state, signature.arguments.as_slice())?;
    match found {
        Some(values) => call_ready(&seen.here, state, resolved, &values),
        None => seen.here.illegal(state),
    }
}
