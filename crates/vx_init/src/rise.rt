//! How far the classes whose initialisation has not begun go up from a class, at one configuration.

ghost use Rattle.std.specs.Prelude.{◌≡◌};
ghost use Rattle.vx_init.specs.Rising.{above, climbed, is_open};

use vx_value::{ClassId, Exact, InitState};

/// How far the classes whose initialisation has not begun go up from a class, at one configuration (JVMS 5.5). A number is that of these
/// classes.
#[derive(Clone, Copy, PartialEq, Eq, PartialOrd, Ord)]
pub enum Rise {
    /// All classes so far have not begun.
    Open,
    /// The class above them has begun, and has not failed.
    Begins(usize),
    /// The initialisation of the class above them has failed.
    Fails(usize),
    /// This interface would be initialised before the first of them that has such an interface.
    Blocked(ClassId),
}

impl Exact for Rise {
    ghost use Rattle.vx_init.specs.Rises.{rise_exact};

    ghost exact = { rise_exact };
}

/// Whether the class above may not have begun either.
pub(crate) fn is_open(rise: Rise) -> bool
    ensures { result ≡ is_open rise }
{
    matches!(rise, Rise::Open)
}

/// What a class comes to by its state, with so many below it that have not begun, and the interface that would be initialised before it.
fn above(state: InitState, below: usize, blocking: Option<ClassId>) -> Rise
    ensures { result ≡ above state below blocking }
{
    match state {
        InitState::Not => match blocking {
            Some(interface) => Rise::Blocked(interface),
            None => Rise::Open,
        },
        InitState::Failed => Rise::Fails(below),
        InitState::Running | InitState::Done => Rise::Begins(below),
    }
}

/// One class more.
pub(crate) fn climbed(rise: Rise, state: InitState, below: usize, blocking: Option<ClassId>) -> Rise
    ensures { result ≡ climbed rise state below blocking }
{
    match rise {
        Rise::Open => above(state, below, blocking),
        closed => closed,
    }
}
