//! The classes from one upward.

ghost use Rattle.std.specs.Prelude.{◌≡◌, IfOk};
ghost use Rattle.vx_ready.specs.Initialising.{numbers_of};
ghost use Rattle.vx_init.specs.Rising.{first_above, too_many};

use std::alloc::{AllocError, Global};
use vx_frames::MOST_FRAMES;
use vx_java::parts::superclass_of;
use vx_link::Program;
use vx_value::ClassId;

/// A class and its superclasses upward, so many at most.
pub(crate) fn first_above(
    alloc: Global,
    program: &Program,
    class: ClassId,
    most: usize,
) -> Result<Vec<ClassId>, AllocError>
    ensures { IfOk result (λ chain. numbers_of chain.items ≡ first_above program.now class.0 most) }
{
    let mut chain = Vec::new(alloc);
    let mut left = most;
    let mut next = Some(class);
    while left > 0 {
        let Some(class) = next else {
            return Ok(chain);
        };
        chain.push(class)?;
        next = superclass_of(program, class);
        left -= 1;
    }
    Ok(chain)
}

/// Whether a run with so many frames has too many with those of a chain (JVMS 2.5.2).
pub(crate) fn too_many(frames: u32, chain: &[ClassId]) -> bool
    ensures { result ≡ too_many frames (numbers_of chain.now) }
{
    frames as usize + chain.len() > MOST_FRAMES as usize
}
