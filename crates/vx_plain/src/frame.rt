//! Frames (JVMS 2.6).

ghost use Rattle.std.specs.Prelude.{◌≡◌, ◌<◌, ◌^◌, ◌-◌, ◌++◌, ◌∷◌, IfOk, OnErr, OnOk, drop, length, option_map, replicate, slice_get, slice_set};
ghost use Rattle.vx_java.specs.Initialisation.{max_locals, new_frame};
ghost use Rattle.vx_java.specs.Machine.{Top as TopValue, stack_size};
ghost use Rattle.vx_link.specs.Parts.{method_at};
ghost use Rattle.vx_plain.specs.Views.{frame_of, value_of, values_of};

use crate::value::Value;
use std::alloc::{AllocError, Global};
use vx_link::Program;
use vx_value::{Kind, MethodId};

/// A frame. The operand on top is the last one.
#[derive(Drop)]
pub struct Frame {
    pub kind: Kind,
    pub method: MethodId,
    pub position: u32,
    pub locals: Vec<Value>,
    pub operands: Vec<Value>,
}

/// The number of local variables of a method.
fn max_locals(program: &Program, method: MethodId) -> usize
    ensures value { result ≡ max_locals (method_at program.now method.0).code }
    ensures few { result < 2 ^ 16 }
{
    match program.method(method) {
        Some(method) => match &method.code {
            Some(code) => code.max_locals as usize,
            None => 0,
        },
        None => 0,
    }
}

/// Local variables up to a number, where those behind the first ones are not set.
#[tactic(auto, using(crate::proofs::Stacks::filled))]
fn filled(first: Vec<Value>, number: usize) -> Result<Vec<Value>, AllocError>
    requires { number < 2 ^ 16 }
    ensures { IfOk result (λ locals. values_of locals.items ≡ values_of first.items ++ replicate (number - length (values_of first.items)) TopValue) }
{
    let mut locals = first;
    let missing = number.saturating_sub(locals.len());
    locals.resize(locals.len() + missing, Value::Top)?;
    Ok(locals)
}

/// How many words values take on the operand stack.
#[tactic(auto, using(crate::proofs::Stacks::size_more))]
fn words_of(values: &[Value]) -> usize
    ensures { result ≡ stack_size (values_of values.now) }
{
    let mut words = 0;
    for value in values {
        words += value.width();
    }
    words
}

impl Frame {
    /// A frame at the start of a method, whose locals begin with these.
    pub fn of(
        alloc: Global,
        program: &Program,
        kind: Kind,
        method: MethodId,
        first: Vec<Value>,
    ) -> Result<Frame, AllocError>
        ensures { IfOk result (λ frame. frame_of frame ≡ new_frame program.now kind method.0 (values_of first.items)) }
    {
        let locals = filled(first, max_locals(program, method))?;
        Ok(Frame {
            kind,
            method,
            position: 0,
            locals,
            operands: Vec::new(alloc),
        })
    }

    /// The operand that stands so many below the one on top.
    #[tactic(auto, using(crate::proofs::Stacks::top_there, crate::proofs::Stacks::top_missing))]
    pub fn operand(&self, below: usize) -> Option<Value>
        ensures { option_map value_of result ≡ slice_get (frame_of self.now).operands below }
    {
        let depth = self.operands.len();
        if below < depth {
            Some(self.operands[depth - 1 - below])
        } else {
            None
        }
    }

    /// How many words the operands take, where so many on top are left out.
    #[tactic(auto, using(crate::proofs::Stacks::words_below))]
    pub fn words_under(&self, above: usize) -> usize
        ensures { result ≡ stack_size (drop above (frame_of self.now).operands) }
    {
        let depth = self.operands.len().saturating_sub(above);
        words_of(&self.operands[..depth])
    }

    /// Takes so many operands off.
    #[tactic(auto, using(crate::proofs::Stacks::top_dropped))]
    pub fn drop_operands(&mut self, count: usize)
        ensures { frame_of self.new ≡ record (frame_of self.old) { operands = drop count (frame_of self.old).operands } }
    {
        let depth = self.operands.len().saturating_sub(count);
        self.operands.truncate(depth);
    }

    /// Puts a value on top of the operands. Want of memory leaves the frame as it was.
    #[tactic(auto, using(crate::proofs::Stacks::top_pushed))]
    pub fn push(&mut self, value: Value) -> Result<(), AllocError>
        ensures ok { OnOk result (frame_of self.new ≡ record (frame_of self.old) { operands = value_of value ∷ (frame_of self.old).operands }) }
        ensures err { OnErr result (frame_of self.new ≡ frame_of self.old) }
    {
        self.operands.push(value)?;
        Ok(())
    }

    /// Writes a local variable; one that isn't there stays.
    #[tactic(auto, using(crate::proofs::Heaps::value_set))]
    pub fn set_local(&mut self, place: usize, value: Value)
        ensures { frame_of self.new ≡ record (frame_of self.old) { locals = slice_set (frame_of self.old).locals place (value_of value) } }
    {
        if place < self.locals.len() {
            self.locals[place] = value;
        }
    }
}
