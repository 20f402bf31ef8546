//! The frames that a trace shows of those that a throwable has noted.

ghost use Rattle.std.specs.Prelude.{◌≡◌, ◌++◌, IfOk, None, OnOk, codes};
ghost use Rattle.std.specs.Str.{bytes_eq};
ghost use Rattle.vx_link.specs.Parts.{method_at};
ghost use Rattle.vx_trace.specs.Shown.{behind_constructors, constructs, if_shown, is_begun, is_shown, is_wait, shown, shown_below};

use std::alloc::{AllocError, Global};
use vx_java::assignable;
use vx_java::parts::{class_of_method, name_of_method};
use vx_link::Program;
use vx_noted::Standing;
use vx_value::{ClassId, Kind, MethodId};

fn is_constructor(program: &Program, method: MethodId) -> bool
    ensures { result ≡ bytes_eq (method_at program.now method.0).name (codes "<init>") }
{
    name_of_method(program, method) == b"<init>".as_slice()
}

/// Whether a frame runs a constructor of a class or of one above it.
fn constructs(program: &Program, class: ClassId, frame: Standing) -> bool
    ensures { result ≡ constructs program.now class.0 frame }
{
    is_constructor(program, frame.method)
        && assignable(program, class, class_of_method(program, frame.method))
}

/// The frames behind those on top that run constructors of a class or of those above it.
fn behind_constructors<'a>(
    program: &Program,
    class: ClassId,
    frames: &'a [Standing],
) -> &'a [Standing]
    ensures { result.now ≡ behind_constructors program.now class.0 frames.now }
{
    for place in 0..frames.len() {
        if !constructs(program, class, frames[place]) {
            return &frames[place..];
        }
    }
    &[]
}

fn is_wait(kind: Kind) -> bool
    ensures { result ≡ is_wait kind }
{
    match kind {
        Kind::Wait => true,
        Kind::Call | Kind::Init => false,
    }
}

/// Whether a frame stands right below the initialisation of its class.
fn is_begun(program: &Program, above: Option<Standing>, frame: Standing) -> bool
    ensures { result ≡ is_begun program.now above frame }
{
    match above {
        Some(above) => match above.kind {
            Kind::Call => false,
            Kind::Init | Kind::Wait => {
                class_of_method(program, above.method).0 == class_of_method(program, frame.method).0
            }
        },
        None => false,
    }
}

/// Whether a frame is shown, below another one.
fn is_shown(program: &Program, above: Option<Standing>, frame: Standing, last: bool) -> bool
    ensures { result ≡ is_shown program.now above frame last }
{
    !is_wait(frame.kind) && !(last && is_begun(program, above, frame))
}

/// Puts a frame behind others, if it is to be shown.
fn put_if(frames: &mut Vec<Standing>, yes: bool, frame: Standing) -> Result<(), AllocError>
    ensures { OnOk result (frames.new.items ≡ frames.old.items ++ if_shown yes frame) }
{
    if yes {
        frames.push(frame)?;
    }
    Ok(())
}

/// The frames that are shown.
fn shown_below(
    alloc: Global,
    program: &Program,
    frames: &[Standing],
) -> Result<Vec<Standing>, AllocError>
    ensures { IfOk result (λ shown. shown.items ≡ shown_below program.now None frames.now) }
{
    let mut shown = Vec::new(alloc);
    let mut above = None;
    for place in 0..frames.len() {
        let frame = frames[place];
        let yes = is_shown(program, above, frame, place + 1 == frames.len());
        put_if(&mut shown, yes, frame)?;
        above = Some(frame);
    }
    Ok(shown)
}

/// The frames that are shown of a throwable of a class, which has noted these.
pub(crate) fn shown(
    alloc: Global,
    program: &Program,
    class: ClassId,
    frames: &[Standing],
) -> Result<Vec<Standing>, AllocError>
    ensures { IfOk result (λ left. left.items ≡ shown program.now class.0 frames.now) }
{
    shown_below(alloc, program, behind_constructors(program, class, frames))
}
