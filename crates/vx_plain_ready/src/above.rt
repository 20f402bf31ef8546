//! What stands above the classes whose initialisation has not begun.

ghost use Rattle.std.specs.Prelude.{◌≡◌};
ghost use Rattle.vx_java.specs.Initialisation.{is_below_failed, is_failed, is_not};
ghost use Rattle.vx_java.specs.Machine.{init_at};

use vx_java::parts::superclass_of;
use vx_link::Program;
use vx_value::{ClassId, InitState};

fn state_of(inits: &[InitState], class: ClassId) -> InitState
    ensures { result ≡ init_at inits.now class.0 }
{
    inits
        .get(class.0 as usize)
        .copied()
        .unwrap_or(InitState::Done)
}

fn is_not(inits: &[InitState], class: ClassId) -> bool
    ensures { result ≡ is_not (init_at inits.now class.0) }
{
    matches!(state_of(inits, class), InitState::Not)
}

fn is_failed(inits: &[InitState], class: ClassId) -> bool
    ensures { result ≡ is_failed (init_at inits.now class.0) }
{
    matches!(state_of(inits, class), InitState::Failed)
}

/// Whether the first class from one upward whose initialisation has begun has failed.
pub(crate) fn is_below_failed(program: &Program, inits: &[InitState], class: ClassId) -> bool
    ensures { result ≡ is_below_failed program.now inits.now class.0 }
{
    let mut left = program.classes.len();
    let mut next = Some(class);
    while left > 0 {
        let Some(class) = next else {
            return false;
        };
        if !is_not(inits, class) {
            return is_failed(inits, class);
        }
        next = superclass_of(program, class);
        left -= 1;
    }
    false
}
