//! The verdict over a program.

ghost use Rattle.std.specs.Bool.{MatchBool};
ghost use Rattle.std.specs.List.{list_all};
ghost use Rattle.std.specs.Prelude.{◌≡◌, IfOk, true};
ghost use Rattle.vx_java.specs.Ids.{HasClassNumbers};
ghost use Rattle.vx_types.specs.Ranked.{HasRanks};
ghost use Rattle.vx_verify.specs.Typing.{IsTyped};
ghost use Rattle.vx_verify.specs.Verdict.{CanBeTyped, IsVerdict, has_short_code};

use crate::inference::is_typed;
use std::alloc::{AllocError, Global};
use vx_java::parts::code_of;
use vx_link::Program;
use vx_numbered::next_number;
use vx_value::MethodId;

/// Whether each method of a program has a typing.
#[derive(Clone, Copy, Debug, PartialEq, Eq)]
pub enum Verdict {
    Yes,
    /// The first method, by its number, that has none.
    No { method: MethodId },
}

/// Whether a method has no code, or code that has a typing.
fn is_method_typed(alloc: Global, program: &Program, method: MethodId) -> Result<bool, AllocError>
    requires { CanBeTyped program.now }
    ensures { IfOk result (λ typed. MatchBool typed (IsTyped program.now method.0) (¬ IsTyped program.now method.0)) }
{
    match code_of(program, method) {
        Some(code) => is_typed(alloc, program, method, code),
        None => Ok(true),
    }
}

/// Infers the types of each method that has code, in the order of their numbers. Memory may run out; a verdict is then not given.
pub fn verify(alloc: Global, program: &Program) -> Result<Verdict, AllocError>
    requires classes { HasClassNumbers program.now }
    requires ranked { HasRanks program.now }
    requires codes { list_all (λ m. has_short_code m.code) program.now.methods ≡ true }
    ensures exact { IfOk result (IsVerdict program.now) }
{
    for place in 0..program.methods.len() {
        let number = next_number(place)?;
        let method = MethodId(number);
        let typed = is_method_typed(alloc, program, method)?;
        if !typed {
            return Ok(Verdict::No { method });
        }
    }
    Ok(Verdict::Yes)
}
