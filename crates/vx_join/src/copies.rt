//! Names and ends with bytes of their own.

ghost use Rattle.std.specs.Prelude.{◌≡◌, IfOk};

use std::alloc::{AllocError, Global};
use vx_value::{End, Name};

/// A name with the same bytes.
pub fn copied_name(alloc: Global, name: &Name) -> Result<Name, AllocError>
    ensures { IfOk result (λ copy. copy ≡ name.now) }
{
    Name::of(alloc, name.bytes())
}

/// Names with the same bytes.
pub fn copied_names(alloc: Global, names: &[Name]) -> Result<Vec<Name>, AllocError>
    ensures { IfOk result (λ copies. copies.items ≡ names.now) }
{
    let mut copies = Vec::new(alloc);
    for name in names {
        copies.push(copied_name(alloc, name)?)?;
    }
    Ok(copies)
}

/// The same end.
pub fn copied_end(alloc: Global, end: &End) -> Result<End, AllocError>
    ensures { IfOk result (λ copy. copy ≡ end.now) }
{
    match end {
        End::Return => Ok(End::Return),
        End::Exit(code) => Ok(End::Exit(*code)),
        End::Uncaught(class) => Ok(End::Uncaught(copied_name(alloc, class)?)),
        End::Unsupported { word, what, place } => {
            let what = copied_name(alloc, what)?;
            let place = copied_name(alloc, place)?;
            Ok(End::Unsupported {
                word: *word,
                what,
                place,
            })
        }
        End::Illegal(place) => Ok(End::Illegal(copied_name(alloc, place)?)),
        End::Unfinished => Ok(End::Unfinished),
    }
}
