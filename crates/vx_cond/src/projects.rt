//! What every container of conditions has: the ids that it holds, and its plain value at each configuration.

ghost use Rattle.std.specs.Prelude.{◌≡◌, ◌++◌, Bool, List, OnErr, OnOk};
ghost use Rattle.vx_space.specs.Sets.{Sets, AreKept};

use std::alloc::AllocError;
use vx_space::Space;

/// A value that is plain at each configuration. It depends on a space only through the sets of the ids that it holds.
pub trait Projects<S: Space> {
    /// The kind of the plain value.
    ghost Plain: { Type 0 };

    /// The ids held.
    ghost ids: { Self → List S.Id };

    /// The plain value at a configuration, over what a space knows.
    ghost plain: { Sets S.Id → Self → List Bool → Plain };

    /// Appends just the ids held. Want of memory leaves the list as it was.
    fn ids_out(&self, out: &mut Vec<S::Id>) -> Result<(), AllocError>
        ensures ok { OnOk result (out.new.items ≡ out.old.items ++ ids self.now) }
        ensures err { OnErr result (out.new.items ≡ out.old.items) };

    /// The law of keeping: over two spaces in which each of its ids has the same set, the plain value at each
    /// configuration is the same.
    ghost keeping: { (before after : Sets S.Id) (value : Self) (c : List Bool) → AreKept before after (ids value) → plain after value c ≡ plain before value c };
}
