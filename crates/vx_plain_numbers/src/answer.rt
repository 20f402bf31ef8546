//! What an instruction makes of its operands, and how that is carried out.

ghost use Rattle.std.specs.Prelude.{◌≡◌, ◌<◌, ◌+ℤ◌, IfOk, codes, drop, pos};
ghost use Rattle.vx_java.specs.Jumps.{jump};
ghost use Rattle.vx_java.specs.Machine.{raise_with};
ghost use Rattle.vx_plain.specs.Views.{state_of};
ghost use Rattle.vx_plain_here.specs.Rows.{ComesTo, here_in};
ghost use Rattle.vx_plain_numbers.specs.Family.{StandsInCode};
ghost use Rattle.vx_plain_numbers.specs.Numbers.{answered};
ghost use Rattle.vx_value.specs.Arithmetic.{natural};

use vx_plain::{State, Value};
use vx_plain_here::{Here, Made, Outcome};
use vx_units::of_bytes;

/// What an instruction makes of its operands.
#[derive(Clone, Copy)]
pub enum Answer {
    /// A rule of the instruction is broken.
    Illegal,
    /// The value is put on the operands that are left, if it fits, and the run goes past the instruction.
    Push(Value),
    /// A division by zero is raised.
    ByZero,
    /// The run goes to the position that is so far from the opcode.
    Jump(i32),
    /// The run goes past the instruction.
    Pass,
}

/// The position that is so far from another in code, or 0 before the code.
fn target(position: u32, offset: i32) -> u32
    requires { position < 65536 }
    ensures { result ≡ natural (pos position +ℤ offset) }
{
    let target = i64::from(position) + i64::from(offset);
    target.max(0) as u32
}

/// goto, goto_w: goes to the position that is so far from the opcode, with so many operands taken off.
pub fn jump(here: &Here<'_>, state: &mut State, taken: usize, offset: i32) -> Made
    requires { StandsInCode (state_of state.old) }
    ensures { let s = state_of state.old in IfOk result (ComesTo (jump (here_in here.now s) offset (drop taken s.top.operands)) s (state_of state.new)) }
{
    let target = target(state.position(), offset);
    state.go_to(target, taken);
    Ok(Outcome::Go)
}

/// The exception of a division by zero.
fn by_zero(here: &Here<'_>, state: &State) -> Made
    ensures { let s = state_of state.now in IfOk result (ComesTo (raise_with (here_in here.now s) "java/lang/ArithmeticException" (codes "/ by zero")) s s) }
{
    let message = of_bytes(here.alloc, b"/ by zero")?;
    here.raise_with(state, b"java/lang/ArithmeticException", message)
}

/// Carries out what an instruction makes of so many operands.
pub fn carry_out(here: &Here<'_>, state: &mut State, taken: usize, answer: Answer) -> Made
    requires { StandsInCode (state_of state.old) }
    ensures { let s = state_of state.old in IfOk result (ComesTo (answered (here_in here.now s) (drop taken s.top.operands) answer) s (state_of state.new)) }
{
    match answer {
        Answer::Illegal => here.illegal(state),
        Answer::Push(value) => here.push(state, taken, value),
        Answer::ByZero => by_zero(here, state),
        Answer::Jump(offset) => jump(here, state, taken, offset),
        Answer::Pass => here.go(state, taken),
    }
}
