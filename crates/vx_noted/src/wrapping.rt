//! The frames in which what leaves an initialisation is wrapped (JVMS 5.5).

ghost use Rattle.std.specs.Prelude.{◌≡◌, MatchOption, None, Some};
ghost use Rattle.vx_java.specs.Ids.{HasClassNumbers};
ghost use Rattle.vx_noted.specs.Noted.{below_initialisation, below_wrapped, called_below, handler_by, handles, is_call};

use crate::frames::Standing;
use vx_java::parts::class_of_method;
use vx_java::{assignable, core_class, handler_for};
use vx_link::Program;
use vx_value::{ClassId, Kind};

/// The handler of a frame for an object of a class; one that waits handles nothing.
fn handler_by(program: &Program, frame: Standing, thrown: ClassId) -> Option<u32>
    requires { HasClassNumbers program.now }
    ensures { result ≡ handler_by program.now frame.kind frame thrown.0 }
{
    match frame.kind {
        Kind::Wait => None,
        Kind::Call => handler_for(program, frame.method, frame.position, thrown),
        Kind::Init => handler_for(program, frame.method, frame.position, thrown),
    }
}

fn handles(program: &Program, frame: Standing, thrown: ClassId) -> bool
    requires { HasClassNumbers program.now }
    ensures { result ≡ handles program.now frame thrown.0 }
{
    handler_by(program, frame, thrown).is_some()
}

fn is_call(kind: Kind) -> bool
    ensures { result ≡ is_call kind }
{
    match kind {
        Kind::Call => true,
        Kind::Init | Kind::Wait => false,
    }
}

/// The frames below an initialisation without main, where that has not been called yet.
fn called_below<'a>(program: &Program, frame: Standing, below: &'a [Standing]) -> &'a [Standing]
    ensures { result.now ≡ called_below program.now frame below.now }
{
    match below {
        [main] => {
            if class_of_method(program, frame.method).0 == class_of_method(program, main.method).0 {
                &[]
            } else {
                below
            }
        }
        _ => below,
    }
}

/// The frames below the first initialisation that an object of a class leaves; `None` where a frame handles it before that.
fn below_initialisation<'a>(
    program: &Program,
    thrown: ClassId,
    frames: &'a [Standing],
) -> Option<&'a [Standing]>
    requires { HasClassNumbers program.now }
    ensures { MatchOption result (below_initialisation program.now thrown.0 frames.now ≡ None) (λ below. below_initialisation program.now thrown.0 frames.now ≡ Some below.now) }
{
    for above in 0..frames.len() {
        let frame = frames[above];
        if handles(program, frame, thrown) {
            return None;
        }
        if !is_call(frame.kind) {
            return Some(called_below(program, frame, &frames[above + 1..]));
        }
    }
    None
}

/// The frames in which an object of a class is wrapped that is thrown past frames; `None` where it is not.
pub(crate) fn below_wrapped<'a>(
    program: &Program,
    thrown: ClassId,
    frames: &'a [Standing],
) -> Option<&'a [Standing]>
    requires { HasClassNumbers program.now }
    ensures { MatchOption result (below_wrapped program.now thrown.0 frames.now ≡ None) (λ below. below_wrapped program.now thrown.0 frames.now ≡ Some below.now) }
{
    if assignable(program, thrown, core_class(program, b"java/lang/Error")) {
        return None;
    }
    below_initialisation(program, thrown, frames)
}
