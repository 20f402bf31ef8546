//! What a call comes to at one configuration.

ghost use Rattle.std.specs.Prelude.{◌≡◌, is_some};
ghost use Rattle.vx_java.specs.Ids.{HasClassNumbers};
ghost use Rattle.vx_link.specs.Parts.{method_at};
ghost use Rattle.vx_invoke.specs.Called.{by_selected, call_of, call_on, entered};

use crate::target::{Target, accepts, selected};
use vx_heap::Heap;
use vx_java::parts::native_number;
use vx_java::{Selected, assignable};
use vx_link::Program;
use vx_space::Space;
use vx_value::{ClassId, Exact, MethodId, Slot};

/// What a call comes to at one configuration, where its arguments fit.
#[derive(Clone, Copy, PartialEq, Eq, PartialOrd, Ord)]
pub enum Call {
    /// The receiver is no reference, or its object is not of the named class.
    Illegal,
    /// The receiver is null.
    Null,
    /// The object doesn't implement the named interface, or several superinterfaces give a method.
    WrongKind,
    /// The method that is selected has no body.
    Abstract,
    /// The native method isn't one of those that the machine has.
    Missing(MethodId),
    /// The native method is carried out.
    Native(MethodId),
    /// A frame for the method is pushed.
    Enter(MethodId),
}

impl Exact for Call {
    ghost use Rattle.vx_invoke.specs.Calls.{call_exact};

    ghost exact = { call_exact };
}

fn has_code(program: &Program, method: MethodId) -> bool
    ensures { result ≡ is_some (method_at program.now method.0).code }
{
    match program.method(method) {
        Some(method) => method.code.is_some(),
        None => false,
    }
}

/// A method that was selected, by what it has.
fn entered(program: &Program, method: MethodId) -> Call
    ensures { result ≡ entered program.now method.0 }
{
    if has_code(program, method) {
        return Call::Enter(method);
    }
    if native_number(program, method) == 0 {
        return Call::Missing(method);
    }
    Call::Native(method)
}

/// What a selection comes to.
pub(crate) fn by_selected(program: &Program, selected: Selected) -> Call
    ensures { result ≡ by_selected program.now selected }
{
    match selected {
        Selected::Method(method) => entered(program, method),
        Selected::Abstract => Call::Abstract,
        Selected::Conflict => Call::WrongKind,
    }
}

/// What a call comes to on an object of a class.
fn call_on(program: &Program, target: &Target, class: ClassId) -> Call
    requires { HasClassNumbers program.now }
    ensures { result ≡ call_on program.now target.now class.0 }
{
    if !accepts(program, target, class) {
        return Call::Illegal;
    }
    if target.by_interface && !assignable(program, class, target.named) {
        return Call::WrongKind;
    }
    by_selected(program, selected(program, target, class))
}

/// What a call on an object comes to, by the operand that is the receiver: the class of its object selects the method.
pub(crate) fn call_of<S: Space>(
    program: &Program,
    heap: &Heap<S>,
    target: &Target,
    receiver: Slot,
) -> Call
    requires { HasClassNumbers program.now }
    ensures { result ≡ call_of program.now heap.now target.now receiver }
{
    if let Slot::Null = receiver {
        return Call::Null;
    }
    match heap.class_at(receiver) {
        Some(class) => call_on(program, target, class),
        None => Call::Illegal,
    }
}
