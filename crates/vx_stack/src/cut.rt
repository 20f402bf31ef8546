//! What stands in the words that a stack form works on. A long takes two words and is not divided (JVMS 2.6.2, 2.11.1).

ghost use Rattle.std.specs.Prelude.{◌≡◌, ◌+◌, ◌≤◌, IfSome};
ghost use Rattle.vx_java.specs.StackForms.{lower, upper};
ghost use Rattle.vx_stack.specs.Cuts.{count_of, counts_of, first_cut, grown, is_found, next, part_of_words};

use vx_java::Shuffle;
use vx_value::{Exact, Slot};

/// Some of the words of a stack form, as far as the operands from the top down are known.
#[derive(Clone, Copy, Debug, PartialEq, Eq, PartialOrd, Ord)]
pub enum Part {
    /// There are no words.
    Zero,
    /// The words are found, in one value.
    One,
    /// The words are found, in two values.
    Two,
    /// One word is looked for.
    Word,
    /// Two words are looked for.
    Words,
    /// The second of two words is looked for, under a value of one word.
    Second,
}

impl Exact for Part {
    ghost use Rattle.vx_stack.specs.Exact.{part_exact};

    ghost exact = { part_exact };
}

/// The words that a stack form works on, as far as the operands from the top down are known.
#[derive(Clone, Copy, Debug, PartialEq, Eq, PartialOrd, Ord)]
pub enum Cut {
    /// A long would be divided.
    Divided,
    /// The upper words, and those under them.
    Parts(Part, Part),
}

impl Exact for Cut {
    ghost use Rattle.vx_stack.specs.Exact.{cut_exact};

    ghost exact = { cut_exact };
}

/// How many words are upper ones.
fn upper_words(form: Shuffle) -> usize
    ensures words { result ≡ upper form }
    ensures few { result ≤ 2 }
{
    match form {
        Shuffle::Pop2 | Shuffle::Dup2 | Shuffle::Dup2X1 | Shuffle::Dup2X2 => 2,
        _ => 1,
    }
}

/// How many words are under the upper ones.
fn lower_words(form: Shuffle) -> usize
    ensures words { result ≡ lower form }
    ensures few { result ≤ 2 }
{
    match form {
        Shuffle::DupX1 | Shuffle::Dup2X1 | Shuffle::Swap => 1,
        Shuffle::DupX2 | Shuffle::Dup2X2 => 2,
        _ => 0,
    }
}

/// So many words that are looked for.
fn looked_for(words: usize) -> Part
    ensures { result ≡ part_of_words words }
{
    match words {
        0 => Part::Zero,
        1 => Part::Word,
        _ => Part::Words,
    }
}

/// How many operands a stack form looks at, at most: each takes a word at least.
pub fn reach(form: Shuffle) -> usize
    ensures { result ≡ upper form + lower form }
{
    upper_words(form) + lower_words(form)
}

/// The words of a stack form before any operand is known.
pub fn first_cut(form: Shuffle) -> Cut
    ensures { result ≡ first_cut form }
{
    Cut::Parts(looked_for(upper_words(form)), looked_for(lower_words(form)))
}

fn is_found(part: Part) -> bool
    ensures { result ≡ is_found part }
{
    matches!(part, Part::Zero | Part::One | Part::Two)
}

/// The words with one operand more, or `None` where it is a long that would be divided.
fn grown(part: Part, operand: Slot) -> Option<Part>
    ensures { result ≡ grown part operand }
{
    match (part, operand) {
        (Part::Word | Part::Second, Slot::Long(_)) => None,
        (Part::Words, Slot::Long(_)) | (Part::Word, _) => Some(Part::One),
        (Part::Words, _) => Some(Part::Second),
        (Part::Second, _) => Some(Part::Two),
        (found, _) => Some(found),
    }
}

/// The words of a stack form with one operand more. An operand under them changes nothing.
pub fn next(cut: Cut, operand: Slot) -> Cut
    ensures { result ≡ next cut operand }
{
    let Cut::Parts(upper, lower) = cut else {
        return Cut::Divided;
    };
    if is_found(upper) {
        match grown(lower, operand) {
            Some(lower) => Cut::Parts(upper, lower),
            None => Cut::Divided,
        }
    } else {
        match grown(upper, operand) {
            Some(upper) => Cut::Parts(upper, lower),
            None => Cut::Divided,
        }
    }
}

/// How many values stand in the words, once they are found.
fn count(part: Part) -> Option<usize>
    ensures value { result ≡ count_of part }
    ensures few { IfSome result (λ n. n ≤ 2) }
{
    match part {
        Part::Zero => Some(0),
        Part::One => Some(1),
        Part::Two => Some(2),
        _ => None,
    }
}

/// How many values stand in the upper words and in those under them, or `None` where values lack or a long would be
/// divided.
pub fn counts(cut: Cut) -> Option<(usize, usize)>
    ensures value { result ≡ counts_of cut }
    ensures few { IfSome result (λ n. (n.0 ≤ 2) × (n.1 ≤ 2)) }
{
    let Cut::Parts(upper, lower) = cut else {
        return None;
    };
    let above = count(upper)?;
    let under = count(lower)?;
    Some((above, under))
}
