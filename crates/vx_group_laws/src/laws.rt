//! Keeping over a compaction, and when two keys are one.

ghost use Rattle.std.specs.Prelude.{◌≡◌, ◌↔◌, IsTrue};
ghost use Rattle.vx_group_laws.specs.Keeping.{KeepsGroups};

use vx_space::Space;
use vx_value::Key;

/// The law of keeping for a group in a tree: a compaction whose roots are the ids that the group and the tree hold leaves
/// it a group in the tree, with the same frames and attempts at each configuration of its path.
pub fn groups_are_kept<S: Space>()
    ensures { KeepsGroups S S.Id }
{}

/// Whether two keys are one. Keys that compare equal have the same parts.
pub fn is_same_key(first: &Key, second: &Key) -> bool
    ensures { IsTrue result ↔ (first.now ≡ second.now) }
{
    first == second
}
