//! Questions that the superinterfaces of a class are asked in turn. Classes that have been asked, with all above them, and gave
//! no answer, are marked, and aren't asked again.

ghost use Rattle.std.specs.List.{list_all};
ghost use Rattle.std.specs.Prelude.{◌≡◌, ◌∷◌, ℕ, Option, slice_set, true};
ghost use Rattle.vx_java.specs.Silent.{AreSilent, AreUnmarked, is_marked, with_mark};
ghost use Rattle.vx_link.specs.Hierarchy.{interfaces_below, interfaces_within, superinterfaces};
ghost use Rattle.vx_link.specs.Resolution.{first_given};
ghost use Rattle.vx_link.specs.declared.program.Program.{Program};

use crate::parts::{interfaces_of, superclass_of};
use vx_link::Program;
use vx_value::ClassId;

/// How many classes have room for a mark: all that a folder and the core may have. One without it is asked as often as there
/// are ways to it.
const MARKS: usize = 1280;

pub type Marks = [bool; MARKS];

/// A question about a class, which it may answer by a number.
pub trait Question {
    /// The answer of a class of a program.
    ghost answer: { Self → Program → ℕ → Option ℕ };

    /// Asks a class.
    fn ask(&self, program: &Program, class: ClassId) -> Option<u32>
        ensures { result ≡ answer self.now program.now class.0 };
}

/// Marks of no class.
pub fn no_marks() -> Marks
    ensures { AreUnmarked result }
{
    [false; MARKS]
}

fn is_marked(silent: &Marks, class: ClassId) -> bool
    ensures { result ≡ is_marked silent.now class }
{
    silent.get(class.0 as usize).copied().unwrap_or(false)
}

fn are_marked(silent: &Marks, classes: &[ClassId]) -> bool
    ensures { result ≡ list_all (is_marked silent.now) classes.now }
{
    classes.iter().all(|class| is_marked(silent, *class))
}

fn set_mark(silent: &mut Marks, class: ClassId)
    ensures { silent.new ≡ slice_set silent.old class.0 true }
{
    let place = class.0 as usize;
    if place < silent.len() {
        silent[place] = true;
    }
}

/// Marks a class that gave no answer, where all its direct superinterfaces are marked.
fn mark(program: &Program, class: ClassId, silent: &mut Marks)
    ensures { silent.new ≡ with_mark program.now class silent.old }
{
    if are_marked(silent, interfaces_of(program, class)) {
        set_mark(silent, class);
    }
}

/// The first answer of a class and of its superinterfaces, down to a depth.
#[cycle(asking)]
fn ask_from<Q: Question>(
    program: &Program,
    question: &Q,
    class: ClassId,
    depth: usize,
    silent: &mut Marks,
) -> Option<u32>
    requires { AreSilent (Q.answer question.now program.now) program.now silent.old }
    ensures answer { result ≡ first_given (Q.answer question.now program.now) (class.0 ∷ interfaces_within program.now depth class.0) }
    ensures silent { AreSilent (Q.answer question.now program.now) program.now silent.new }
{
    if is_marked(silent, class) {
        return None;
    }
    if let Some(answer) = question.ask(program, class) {
        return Some(answer);
    }
    let answer = ask_within(program, question, class, depth, silent);
    mark(program, class, silent);
    answer
}

/// The first answer of the superinterfaces of a class, down to a depth.
#[cycle(asking)]
fn ask_within<Q: Question>(
    program: &Program,
    question: &Q,
    class: ClassId,
    depth: usize,
    silent: &mut Marks,
) -> Option<u32>
    requires { AreSilent (Q.answer question.now program.now) program.now silent.old }
    ensures answer { result ≡ first_given (Q.answer question.now program.now) (interfaces_within program.now depth class.0) }
    ensures silent { AreSilent (Q.answer question.now program.now) program.now silent.new }
{
    if depth == 0 {
        return None;
    }
    for interface in interfaces_of(program, class) {
        if let Some(answer) = ask_from(program, question, *interface, depth - 1, silent) {
            return Some(answer);
        }
    }
    None
}

/// The first answer among the direct superinterfaces of a class and those above them. Marked classes are not asked, and those
/// that give no answer are marked.
pub fn ask_below<Q: Question>(
    program: &Program,
    question: &Q,
    class: ClassId,
    silent: &mut Marks,
) -> Option<u32>
    requires { AreSilent (Q.answer question.now program.now) program.now silent.old }
    ensures answer { result ≡ first_given (Q.answer question.now program.now) (interfaces_below program.now class.0) }
    ensures silent { AreSilent (Q.answer question.now program.now) program.now silent.new }
{
    ask_within(program, question, class, program.classes.len(), silent)
}

/// The first answer of the superinterfaces of a class: those of the class, and then those of each superclass upward.
pub fn ask_superinterfaces<Q: Question>(
    program: &Program,
    question: &Q,
    class: ClassId,
) -> Option<u32>
    ensures { result ≡ first_given (Q.answer question.now program.now) (superinterfaces program.now class.0) }
{
    let mut silent = no_marks();
    let mut left = program.classes.len();
    let mut next = Some(class);
    while left > 0 {
        let Some(class) = next else {
            return None;
        };
        if let Some(answer) = ask_below(program, question, class, &mut silent) {
            return Some(answer);
        }
        next = superclass_of(program, class);
        left -= 1;
    }
    None
}
