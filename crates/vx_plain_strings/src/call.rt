//! A call of a native method.

use vx_plain::Value;
use vx_plain_here::Here;

/// The receiver of a call, where there is one, and its arguments. No native method has more.
#[derive(Clone, Copy)]
pub enum Arguments {
    Nothing,
    One(Value),
    Two(Value, Value),
    Three(Value, Value, Value),
    Four(Value, Value, Value, Value),
    Five(Value, Value, Value, Value, Value),
}

/// A call of a native method: what it sees, its receiver and its arguments, and how many operands they are.
#[derive(Clone, Copy)]
pub struct Call<'a> {
    pub here: &'a Here<'a>,
    pub values: Arguments,
    pub taken: usize,
}
