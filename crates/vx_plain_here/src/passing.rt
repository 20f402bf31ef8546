//! Going on past an instruction, with operands taken off and a value put in their place.

ghost use Rattle.std.specs.Prelude.{◌≡◌, ◌+◌, ◌∷◌, IfOk, drop, nat_le};
ghost use Rattle.vx_java.specs.Machine.{go, has_room, push, push_new};
ghost use Rattle.vx_plain.specs.Views.{object_of, state_of, value_of};
ghost use Rattle.vx_plain_here.specs.Rows.{ComesTo, here_in};

use crate::here::Here;
use crate::outcome::{Made, Outcome};
use vx_plain::{Object, State, Value};

/// Whether so many words have room over others, where there is room for a number of words.
#[tactic(auto, using(crate::proofs::Rooms::left_over, crate::proofs::Rooms::over_full))]
pub fn words_fit(words: usize, width: usize, most: usize) -> bool
    ensures { result ≡ nat_le (width + words) most }
{
    if words > most {
        return false;
    }
    width <= most - words
}

impl<'a> Here<'a> {
    /// Goes on past the instruction, with so many operands taken off.
    pub fn go(&self, state: &mut State, taken: usize) -> Made
        ensures { let s = state_of state.old in IfOk result (ComesTo (go (here_in self.now s) (drop taken s.top.operands)) s (state_of state.new)) }
    {
        state.pass(self.size, taken)?;
        Ok(Outcome::Go)
    }

    /// Goes on past the instruction, with so many operands taken off and a value put in their place.
    pub fn go_with(&self, state: &mut State, taken: usize, value: Value) -> Made
        ensures { let s = state_of state.old in IfOk result (ComesTo (go (here_in self.now s) (value_of value ∷ drop taken s.top.operands)) s (state_of state.new)) }
    {
        state.pass(self.size, taken)?;
        state.push(value)?;
        Ok(Outcome::Go)
    }

    /// Whether a value of so many words has room, where so many operands are taken off.
    pub fn has_room(&self, state: &State, width: usize, taken: usize) -> bool
        ensures { let s = state_of state.now in result ≡ has_room (here_in self.now s) width (drop taken s.top.operands) }
    {
        words_fit(
            state.words_under(taken),
            width,
            self.code.max_stack as usize,
        )
    }

    /// Puts a value in the place of so many operands, if it has room, and goes on; else a rule is broken.
    pub fn push(&self, state: &mut State, taken: usize, value: Value) -> Made
        ensures { let s = state_of state.old in IfOk result (ComesTo (push (here_in self.now s) (value_of value) (drop taken s.top.operands)) s (state_of state.new)) }
    {
        if self.has_room(state, value.width(), taken) {
            self.go_with(state, taken, value)
        } else {
            self.illegal(state)
        }
    }

    /// Puts a new object in the place of so many operands, which have room for it, and goes on.
    pub fn push_new(&self, state: &mut State, taken: usize, object: Object) -> Made
        ensures { let s = state_of state.old in IfOk result (ComesTo (push_new (here_in self.now s) (object_of object) (drop taken s.top.operands)) s (state_of state.new)) }
    {
        let place = state.add(object)?;
        self.go_with(state, taken, Value::Ref(place))
    }
}
