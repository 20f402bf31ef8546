//! Initialisations that go on once that of a superclass is done.

ghost use Rattle.std.specs.Prelude.{◌≡◌};
ghost use Rattle.vx_group.specs.Group.{IsGroup};
ghost use Rattle.vx_java.specs.Returns.{awake as awake_kind};
ghost use Rattle.vx_frames.specs.Waking.{IsWoken};

use vx_group::Group;
use vx_space::Space;
use vx_value::Kind;

/// The kind of a frame once the initialisation above it is done: one that waited is the next to initialise.
fn awake(kind: Kind) -> Kind
    ensures { result ≡ awake_kind kind }
{
    match kind {
        Kind::Wait => Kind::Init,
        other => other,
    }
}

/// Makes the frame on top of a group the next to initialise, if it waits: the initialisation above it is done (JVMS 5.5). A frame of
/// another kind stays.
pub fn woken<S: Space>(space: &S, group: Group<S>) -> Group<S>
    requires { IsGroup (S.sets space.now) group }
    ensures { IsWoken (S.sets space.now) group result }
{
    let (below, mut frame) = group.take_top();
    frame.kind = awake(frame.kind);
    below.put_top(frame)
}
