//! Ends of the run, and exceptions that are raised: the state stays.

ghost use Rattle.std.specs.Prelude.{◌≡◌, IfOk, None, Some, unwrap_or};
ghost use Rattle.vx_java.specs.Machine.{Raise as RaiseOutcome, illegal, illegal_in, place as place_in, unsupported, unsupported_in};
ghost use Rattle.vx_link.specs.ClassNames.{class_of_name};
ghost use Rattle.vx_plain.specs.Views.{state_of};
ghost use Rattle.vx_plain_here.specs.Rows.{ComesTo, here_in};

use crate::here::Here;
use crate::outcome::{Made, Outcome};
use std::alloc::{AllocError, Global};
use vx_java::place;
use vx_link::Program;
use vx_plain::State;
use vx_value::{End, Name};

/// The place of the frame on top.
#[tactic(auto, unfolding(vx_plain::specs::Views::state_of))]
fn place_of(alloc: Global, program: &Program, state: &State) -> Result<Name, AllocError>
    ensures { IfOk result (λ place. place ≡ place_in program.now (state_of state.now)) }
{
    place(alloc, program, state.top.method, state.top.position)
}

/// The run ends as illegal, at the place of the frame on top.
pub fn illegal_at(alloc: Global, program: &Program, state: &State) -> Made
    ensures { let s = state_of state.now in IfOk result (ComesTo (illegal_in program.now s) s s) }
{
    let place = place_of(alloc, program, state)?;
    Ok(Outcome::Ended(End::Illegal(place)))
}

/// The run ends as unsupported, at the place of the frame on top.
pub fn unsupported_at(alloc: Global, program: &Program, state: &State, word: u8, what: Name) -> Made
    ensures { let s = state_of state.now in IfOk result (ComesTo (unsupported_in program.now s word what) s s) }
{
    let place = place_of(alloc, program, state)?;
    Ok(Outcome::Ended(End::Unsupported { word, what, place }))
}

impl<'a> Here<'a> {
    /// A rule of the instruction is broken.
    pub fn illegal(&self, state: &State) -> Made
        ensures { let s = state_of state.now in IfOk result (ComesTo (illegal (here_in self.now s)) s s) }
    {
        illegal_at(self.alloc, self.program, state)
    }

    /// Something outside the accepted language.
    pub fn unsupported(&self, state: &State, word: u8, what: &[u8]) -> Made
        ensures { let s = state_of state.now in IfOk result (ComesTo (unsupported (here_in self.now s) word what.now) s s) }
    {
        let what = Name::of(self.alloc, what)?;
        unsupported_at(self.alloc, self.program, state, word, what)
    }

    /// Raises a core class without a message.
    pub fn raise(&self, _state: &State, class: &[u8]) -> Made
        ensures { let s = state_of _state.now in IfOk result (ComesTo (RaiseOutcome (unwrap_or (class_of_name self.now.program.now class.now) 0) None s) s s) }
    {
        Ok(Outcome::Raise {
            class: self.core(class),
            message: None,
        })
    }

    /// Raises a core class with a message.
    pub fn raise_with(&self, _state: &State, class: &[u8], message: Vec<u16>) -> Made
        ensures { let s = state_of _state.now in IfOk result (ComesTo (RaiseOutcome (unwrap_or (class_of_name self.now.program.now class.now) 0) (Some message.items) s) s s) }
    {
        Ok(Outcome::Raise {
            class: self.core(class),
            message: Some(message),
        })
    }
}
