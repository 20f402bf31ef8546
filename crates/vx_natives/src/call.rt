//! What a call of a native method is given at one configuration.

ghost use Rattle.std.specs.Prelude.{◌≡◌};
ghost use Rattle.vx_natives.specs.Calls.{value_of_call, with_argument, with_value};

use vx_value::{Exact, Slot};

/// What a call of a native method is given at one configuration: its values in order, the receiver first where there is one, and behind
/// them what was read for it. No method needs more than five.
#[derive(Clone, Copy, Debug, PartialEq, Eq, PartialOrd, Ord)]
pub enum Call {
    /// A rule of the call is broken.
    Illegal,
    Nothing,
    One(Slot),
    Two(Slot, Slot),
    Three(Slot, Slot, Slot),
    Four(Slot, Slot, Slot, Slot),
    Five(Slot, Slot, Slot, Slot, Slot),
}

impl Exact for Call {
    ghost use Rattle.vx_natives.specs.CallOrder.{call_exact};

    ghost exact = { call_exact };
}

/// The values with one more behind them. There is no room for a sixth.
pub fn with_value(call: Call, value: Slot) -> Call
    ensures { result ≡ with_value call value }
{
    match call {
        Call::Nothing => Call::One(value),
        Call::One(a) => Call::Two(a, value),
        Call::Two(a, b) => Call::Three(a, b, value),
        Call::Three(a, b, c) => Call::Four(a, b, c, value),
        Call::Four(a, b, c, d) => Call::Five(a, b, c, d, value),
        Call::Illegal | Call::Five(..) => Call::Illegal,
    }
}

/// The values with an argument behind them, where there is one.
pub(crate) fn with_argument(call: Call, argument: Option<Slot>) -> Call
    ensures { result ≡ with_argument call argument }
{
    match argument {
        Some(value) => with_value(call, value),
        None => Call::Illegal,
    }
}

/// The first value or the one behind it; what isn't there is `Top`.
pub fn value_of_call(call: Call, is_second: bool) -> Slot
    ensures { result ≡ value_of_call is_second call }
{
    match call {
        Call::Illegal | Call::Nothing => Slot::Top,
        Call::One(a) => { if is_second { Slot::Top } else { a } }
        Call::Two(a, b)
        | Call::Three(a, b, _)
        | Call::Four(a, b, _, _)
        | Call::Five(a, b, _, _, _) => { if is_second { b } else { a } }
    }
}
