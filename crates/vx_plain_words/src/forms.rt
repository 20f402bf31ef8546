//! The stack forms (JVMS 6.5 pop, pop2, dup, dup_x1, dup_x2, dup2, dup2_x1, dup2_x2, swap).

ghost use Rattle.std.specs.Prelude.{◌≡◌, ◌+◌, ◌<◌, ◌++◌, IfOk, OnOk, Some, drop, option_map};
ghost use Rattle.vx_java.specs.Machine.{at_position, settle};
ghost use Rattle.vx_java.specs.StackForms.{lower as lower_of, stack, upper as upper_of, values_reordered, words as words_off};
ghost use Rattle.vx_plain.specs.Views.{state_of};
ghost use Rattle.vx_plain_here.specs.Rows.{ComesTo, here_in};
ghost use Rattle.vx_plain_words.specs.Taken.{count, one_of, taken, two_of, values_in};

use vx_java::Shuffle;
use vx_list::GivenUp;
use vx_plain::{State, Value};
use vx_plain_here::{Here, Made};

/// Values off the top of the operands that are one word or two, the top first.
#[derive(Clone, Copy)]
pub enum Words {
    Nothing,
    One(Value),
    Two(Value, Value),
}

/// How many values they are.
fn count(words: Words) -> usize
    ensures count { result ≡ count words }
    ensures few { result < 3 }
{
    match words {
        Words::Nothing => 0,
        Words::One(_) => 1,
        Words::Two(_, _) => 2,
    }
}

/// How many words are upper ones.
fn upper_words(form: Shuffle) -> usize
    ensures words { result ≡ upper_of form }
    ensures few { result < 3 }
{
    match form {
        Shuffle::Pop => 1,
        Shuffle::Pop2 => 2,
        Shuffle::Dup => 1,
        Shuffle::DupX1 => 1,
        Shuffle::DupX2 => 1,
        Shuffle::Dup2 => 2,
        Shuffle::Dup2X1 => 2,
        Shuffle::Dup2X2 => 2,
        Shuffle::Swap => 1,
    }
}

/// How many words are under the upper ones.
fn lower_words(form: Shuffle) -> usize
    ensures words { result ≡ lower_of form }
    ensures few { result < 3 }
{
    match form {
        Shuffle::Pop => 0,
        Shuffle::Pop2 => 0,
        Shuffle::Dup => 0,
        Shuffle::DupX1 => 1,
        Shuffle::DupX2 => 2,
        Shuffle::Dup2 => 0,
        Shuffle::Dup2X1 => 1,
        Shuffle::Dup2X2 => 2,
        Shuffle::Swap => 1,
    }
}

/// One word of a value; a long would be divided.
fn one_of(value: Value) -> Option<Words>
    ensures { result ≡ one_of value }
{
    match value {
        Value::Long(_) => None,
        Value::Int(_) => Some(Words::One(value)),
        Value::Null => Some(Words::One(value)),
        Value::Ref(_) => Some(Words::One(value)),
        Value::Top => Some(Words::One(value)),
    }
}

/// Two words of a value, and of the one below it where it is no long.
fn two_of(first: Value, second: Option<Value>) -> Option<Words>
    ensures { result ≡ two_of first second }
{
    if let Value::Long(_) = first {
        return Some(Words::One(first));
    }
    match second {
        None => None,
        Some(Value::Long(_)) => None,
        Some(second) => Some(Words::Two(first, second)),
    }
}

/// So many words of values under so many values on top; `None` where values lack or a long would be divided.
#[tactic(auto, using(crate::proofs::FormLaws::no_words, crate::proofs::FormLaws::no_word, crate::proofs::FormLaws::one_word, crate::proofs::FormLaws::two_words))]
fn words_under(state: &State, words: usize, above: usize) -> Option<Words>
    requires few { words < 3 }
    requires near { above < 3 }
    ensures { option_map (taken (state_of state.now).top.operands above) result ≡ words_off words (drop above (state_of state.now).top.operands) }
{
    if words == 0 {
        return Some(Words::Nothing);
    }
    let Some(first) = state.operand(above) else {
        return None;
    };
    if words == 1 {
        return one_of(first);
    }
    two_of(first, state.operand(above + 1))
}

/// Puts values on top of the operands.
fn put(state: &mut State, words: Words) -> Result<(), GivenUp>
    ensures { OnOk result (state_of state.new ≡ at_position (state_of state.old) (state_of state.old).top.position (values_in words ++ (state_of state.old).top.operands)) }
{
    match words {
        Words::Nothing => Ok(()),
        Words::One(value) => Ok(state.push(value)?),
        Words::Two(first, second) => {
            state.push(second)?;
            Ok(state.push(first)?)
        }
    }
}

/// Puts the upper values also under the lower ones.
fn put_again(state: &mut State, upper: Words, lower: Words) -> Result<(), GivenUp>
    ensures { OnOk result (state_of state.new ≡ at_position (state_of state.old) (state_of state.old).top.position (values_in upper ++ (values_in lower ++ (values_in upper ++ (state_of state.old).top.operands)))) }
{
    put(state, upper)?;
    put(state, lower)?;
    put(state, upper)
}

/// Changes the upper values and the lower ones.
fn put_changed(state: &mut State, upper: Words, lower: Words) -> Result<(), GivenUp>
    ensures { OnOk result (state_of state.new ≡ at_position (state_of state.old) (state_of state.old).top.position (values_in lower ++ (values_in upper ++ (state_of state.old).top.operands))) }
{
    put(state, upper)?;
    put(state, lower)
}

/// Puts the values back in the order of a form.
fn put_back(state: &mut State, form: Shuffle, upper: Words, lower: Words) -> Result<(), GivenUp>
    ensures { OnOk result (state_of state.new ≡ at_position (state_of state.old) (state_of state.old).top.position (values_reordered form (values_in upper) (values_in lower) (state_of state.old).top.operands)) }
{
    match form {
        Shuffle::Pop => Ok(()),
        Shuffle::Pop2 => Ok(()),
        Shuffle::Swap => put_changed(state, upper, lower),
        Shuffle::Dup => put_again(state, upper, lower),
        Shuffle::DupX1 => put_again(state, upper, lower),
        Shuffle::DupX2 => put_again(state, upper, lower),
        Shuffle::Dup2 => put_again(state, upper, lower),
        Shuffle::Dup2X1 => put_again(state, upper, lower),
        Shuffle::Dup2X2 => put_again(state, upper, lower),
    }
}

/// Takes the values off, and puts them back in the order of a form.
fn reorder(state: &mut State, form: Shuffle, upper: Words, lower: Words) -> Result<(), GivenUp>
    ensures { OnOk result (state_of state.new ≡ at_position (state_of state.old) (state_of state.old).top.position (values_reordered form (values_in upper) (values_in lower) (drop (count upper + count lower) (state_of state.old).top.operands))) }
{
    let position = state.position();
    state.go_to(position, count(upper) + count(lower));
    put_back(state, form, upper, lower)
}

/// Goes on past the instruction, if the operands fit.
#[tactic(auto, using(crate::proofs::FormLaws::settled, crate::proofs::FormLaws::unsettled))]
fn settle(here: &Here<'_>, state: &mut State) -> Made
    ensures { let s = state_of state.old in IfOk result (ComesTo (settle (here_in here.now s) s.top.operands) s (state_of state.new)) }
{
    if state.words_under(0) <= here.code.max_stack as usize {
        here.go(state, 0)
    } else {
        here.illegal(state)
    }
}

/// A stack form, where the upper values and the lower ones are known.
fn moved(here: &Here<'_>, state: &mut State, form: Shuffle, upper: Words, lower: Words) -> Made
    requires upper { Some (taken (state_of state.old).top.operands 0 upper) ≡ words_off (upper_of form) (drop 0 (state_of state.old).top.operands) }
    requires lower { Some (taken (state_of state.old).top.operands (count upper) lower) ≡ words_off (lower_of form) (drop (count upper) (state_of state.old).top.operands) }
    ensures { let s = state_of state.old in IfOk result (ComesTo (stack (here_in here.now s) form) s (state_of state.new)) }
{
    reorder(state, form, upper, lower)?;
    settle(here, state)
}

/// A stack form, where the upper values are known.
fn under_upper(here: &Here<'_>, state: &mut State, form: Shuffle, upper: Words) -> Made
    requires { Some (taken (state_of state.old).top.operands 0 upper) ≡ words_off (upper_of form) (drop 0 (state_of state.old).top.operands) }
    ensures { let s = state_of state.old in IfOk result (ComesTo (stack (here_in here.now s) form) s (state_of state.new)) }
{
    match words_under(state, lower_words(form), count(upper)) {
        Some(lower) => moved(here, state, form, upper, lower),
        None => here.illegal(state),
    }
}

/// A stack form.
pub fn stack(here: &Here<'_>, state: &mut State, form: Shuffle) -> Made
    ensures { let s = state_of state.old in IfOk result (ComesTo (stack (here_in here.now s) form) s (state_of state.new)) }
{
    match words_under(state, upper_words(form), 0) {
        Some(upper) => under_upper(here, state, form, upper),
        None => here.illegal(state),
    }
}
