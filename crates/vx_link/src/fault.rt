//! Why classes do not link.

ghost use Rattle.std.specs.Prelude.{◌≡◌};
ghost use Rattle.vx_link.specs.declared.fault.LinkFault.TheVariants.{NoMemory};

use std::alloc::{AllocError, AllocFailed};
use vx_value::Name;

/// Why classes do not link (JVMS 5.3, 5.4): want of memory, or the first fault in this order: `Twice`; class by class
/// `NoSuper` before `FinalSuper`; `Cycle`; `NoOption`; `NoMain`.
#[derive(Debug, Drop)]
pub enum LinkFault {
    /// Memory ran out. Nothing is said of the classes.
    NoMemory,
    /// A class whose name an earlier class or a core class has.
    Twice { class: Name },
    /// A class whose superclass or one of whose superinterfaces is not there or is of the wrong sort.
    NoSuper { class: Name },
    /// A class that is its own ancestor.
    Cycle { class: Name },
    /// The named class has no `main` that can be run.
    NoMain,
    /// An option whose field is no static field of type `Z` that its class declares.
    NoOption { option: Name },
    /// A class whose superclass is final.
    FinalSuper { class: Name },
}

impl From<AllocError> for LinkFault {
    ghost from_gives = { λ _ e. e ≡ NoMemory };

    fn from(_e: AllocError) -> LinkFault {
        LinkFault::NoMemory
    }
}

impl<T: Drop> From<AllocFailed<T>> for LinkFault {
    ghost from_gives = { λ _ e. e ≡ NoMemory };

    fn from(_e: AllocFailed<T>) -> LinkFault {
        LinkFault::NoMemory
    }
}
