//! The line of a frame.

ghost use Rattle.std.specs.Prelude.{◌≡◌, ◌++◌, IfOk, OnOk, map, option_copied};
ghost use Rattle.vx_trace.specs.TraceText.{dot, dotted, file_of, frame_line, line_at, method_words, place_words};

use crate::origin::Origin;
use std::alloc::AllocError;
use vx_java::parts::{class_of_method, name_of_class, name_of_method};
use vx_noted::Standing;
use vx_replay::{Place, line_of};
use vx_value::{MethodId, Name};
use vx_words::put_number;

/// A byte of a name with a dot for a slash.
fn dot(byte: u8) -> u8
    ensures { result ≡ dot byte }
{
    if byte == b'/' { b'.' } else { byte }
}

/// Puts the name of a class, with a dot for each slash.
pub(crate) fn put_dotted(out: &mut Vec<u8>, name: &[u8]) -> Result<(), AllocError>
    ensures { OnOk result (out.new.items ≡ out.old.items ++ dotted name.now) }
{
    for byte in name {
        out.push(dot(*byte))?;
    }
    Ok(())
}

/// The source file of the class of a method.
fn file_of<'a>(origin: &Origin<'a>, method: MethodId) -> Option<&'a [u8]>
    ensures { option_copied result ≡ file_of origin.now.program.now origin.now.files.now method.0 }
{
    let class = class_of_method(origin.program, method);
    match origin.files.get(class.0 as usize) {
        Some(Some(file)) => Some(file.bytes()),
        Some(None) => None,
        None => None,
    }
}

/// Puts the file and the line of a frame.
fn put_where(out: &mut Vec<u8>, file: Option<&[u8]>, line: Option<u16>) -> Result<(), AllocError>
    ensures { OnOk result (out.new.items ≡ out.old.items ++ place_words (option_copied file.entry) line) }
{
    let Some(file) = file else {
        return out.extend_from_slice(b"Unknown Source");
    };
    out.extend_from_slice(file)?;
    let Some(line) = line else {
        return Ok(());
    };
    out.extend_from_slice(b":")?;
    put_number(out, line)
}

/// Puts the class and the name of a method.
fn put_method(out: &mut Vec<u8>, origin: &Origin<'_>, method: MethodId) -> Result<(), AllocError>
    ensures { OnOk result (out.new.items ≡ out.old.items ++ method_words origin.now.program.now method.0) }
{
    put_dotted(
        out,
        name_of_class(origin.program, class_of_method(origin.program, method)),
    )?;
    out.extend_from_slice(b".")?;
    out.extend_from_slice(name_of_method(origin.program, method))
}

/// Puts the line of a frame.
pub(crate) fn put_frame(out: &mut Vec<u8>, origin: &Origin<'_>, at: Place) -> Result<(), AllocError>
    ensures { OnOk result (out.new.items ≡ out.old.items ++ frame_line origin.now.program.now origin.now.tables.now origin.now.files.now at.method.0 at.position) }
{
    out.extend_from_slice(b"\tat ")?;
    put_method(out, origin, at.method)?;
    out.extend_from_slice(b"(")?;
    let line = line_of(origin.program, origin.tables, at);
    put_where(out, file_of(origin, at.method), line)?;
    out.extend_from_slice(b")\n")
}

/// The line of a frame, with that of the source, which isn't told where the file is not known.
#[derive(Drop)]
pub struct FrameLine {
    pub text: Name,
    pub line: Option<u16>,
}

fn line_at(origin: &Origin<'_>, frame: Standing) -> Result<FrameLine, AllocError>
    ensures { IfOk result (λ line. line ≡ line_at origin.now.program.now origin.now.tables.now origin.now.files.now frame) }
{
    let mut text = Vec::new(origin.alloc);
    let at = Place {
        method: frame.method,
        position: frame.position,
    };
    put_frame(&mut text, origin, at)?;
    Ok(FrameLine {
        text: Name::from_vec(text),
        line: line_of(origin.program, origin.tables, at),
    })
}

/// The lines of frames.
pub(crate) fn lines_at(
    origin: &Origin<'_>,
    frames: &[Standing],
) -> Result<Vec<FrameLine>, AllocError>
    ensures { IfOk result (λ lines. lines.items ≡ map (line_at origin.now.program.now origin.now.tables.now origin.now.files.now) frames.now) }
{
    let mut lines = Vec::new(origin.alloc);
    for frame in frames {
        let line = line_at(origin, *frame)?;
        lines.push(line)?;
    }
    Ok(lines)
}
