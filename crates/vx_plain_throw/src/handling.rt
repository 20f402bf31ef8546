//! The handlers of frames, and the class that is thrown past them (JVMS 2.10, 5.5).

ghost use Rattle.std.specs.Prelude.{◌≡◌, map, option_map, reverse};
ghost use Rattle.vx_java.specs.Ids.{HasClassNumbers};
ghost use Rattle.vx_java.specs.Step.{frames_of};
ghost use Rattle.vx_link.specs.Assignability.{assignable};
ghost use Rattle.vx_link.specs.ClassNames.{core_class};
ghost use Rattle.vx_plain.specs.Views.{frame_of, state_of};
ghost use Rattle.vx_plain_throw.specs.Passing.{behind, class_behind, handler_at, uncaught_over, wrapper_or};

use vx_java::{assignable, core_class, handler_for};
use vx_link::Program;
use vx_plain::{Frame, State};
use vx_value::{ClassId, Kind};

/// The handler of a frame for an object of a class; one that waits handles nothing.
pub(crate) fn handler_of(program: &Program, frame: &Frame, thrown: ClassId) -> Option<u32>
    requires { HasClassNumbers program.now }
    ensures { result ≡ handler_at program.now (frame_of frame.now) thrown.0 }
{
    match frame.kind {
        Kind::Wait => None,
        Kind::Call => handler_for(program, frame.method, frame.position, thrown),
        Kind::Init => handler_for(program, frame.method, frame.position, thrown),
    }
}

/// Whether a class is that of errors.
pub(crate) fn is_error(program: &Program, thrown: ClassId) -> bool
    requires { HasClassNumbers program.now }
    ensures { result ≡ assignable program.now thrown.0 (core_class program.now "java/lang/Error") }
{
    assignable(program, thrown, core_class(program, b"java/lang/Error"))
}

/// The class of what is thrown once it has passed a frame: what leaves an initialisation is wrapped, unless it is an error.
fn class_behind(program: &Program, kind: Kind, thrown: ClassId) -> ClassId
    requires { HasClassNumbers program.now }
    ensures { result.0 ≡ class_behind program.now kind thrown.0 }
{
    match kind {
        Kind::Call => thrown,
        Kind::Init => wrapper_or(program, thrown),
        Kind::Wait => wrapper_or(program, thrown),
    }
}

fn wrapper_or(program: &Program, thrown: ClassId) -> ClassId
    requires { HasClassNumbers program.now }
    ensures { result.0 ≡ wrapper_or program.now thrown.0 }
{
    if is_error(program, thrown) {
        thrown
    } else {
        core_class(program, b"java/lang/ExceptionInInitializerError")
    }
}

/// The class of what is thrown behind a frame; `None` where the frame handles it.
fn behind(program: &Program, frame: &Frame, thrown: ClassId) -> Option<ClassId>
    requires { HasClassNumbers program.now }
    ensures { option_map (λ c. c.0) result ≡ behind program.now (frame_of frame.now) thrown.0 }
{
    match handler_of(program, frame, thrown) {
        Some(_) => None,
        None => Some(class_behind(program, frame.kind, thrown)),
    }
}

/// The class that is thrown past all these frames, of which the nearest is the last one; `None` where one handles it.
fn uncaught_over(program: &Program, frames: &[Frame], thrown: ClassId) -> Option<ClassId>
    requires { HasClassNumbers program.now }
    ensures { option_map (λ c. c.0) result ≡ uncaught_over program.now (reverse (map frame_of frames.now)) thrown.0 }
{
    let mut thrown = thrown;
    let count = frames.len();
    for above in 0..count {
        let place = count - 1 - above;
        let Some(class) = behind(program, &frames[place], thrown) else {
            return None;
        };
        thrown = class;
    }
    Some(thrown)
}

/// The class that is thrown in the end where no frame handles it; `None` where one does. Nothing is passed.
#[tactic(auto, unfolding(vx_plain::specs::Views::state_of))]
pub(crate) fn uncaught(program: &Program, state: &State, thrown: ClassId) -> Option<ClassId>
    requires { HasClassNumbers program.now }
    ensures { option_map (λ c. c.0) result ≡ uncaught_over program.now (frames_of (state_of state.now)) thrown.0 }
{
    match behind(program, &state.top, thrown) {
        Some(class) => uncaught_over(program, state.callers.as_slice(), class),
        None => None,
    }
}
