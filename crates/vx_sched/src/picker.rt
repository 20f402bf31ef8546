//! Which of the keys of the waiting groups is the next.

ghost use Rattle.std.specs.Prelude.{◌<◌, ℕ, List, length};
ghost use Rattle.vx_value.specs.declared.key.KeyPart.{KeyPart};
ghost use Rattle.vx_sched.specs.Picks.{IsFirstKey};

use vx_value::Key;

/// Chooses the group that makes the next attempt. What every configuration prints and how it ends doesn't depend on it.
pub trait Picker {
    /// What is known of the places that it chooses, by the keys.
    ghost picks: { List (List KeyPart) → ℕ → Type 0 };

    /// A place of the list, which has at least one key.
    fn pick(&mut self, keys: &[Key]) -> usize
        requires { 0 < length keys.now }
        ensures in_range { result < length keys.now }
        ensures picked { picks keys.now result };
}

/// Chooses the group whose key is first, so that configurations meet again as soon as they can.
#[derive(Clone, Copy, Debug)]
pub struct LeastKey;

impl Picker for LeastKey {
    ghost picks = { IsFirstKey };

    /// The first key's place. It takes no memory.
    fn pick(&mut self, keys: &[Key]) -> usize
        requires { 0 < length keys.now }
        ensures in_range { result < length keys.now }
        ensures picked { IsFirstKey keys.now result }
    {
        let mut least = 0;
        for place in 1..keys.len() {
            if keys[place] < keys[least] {
                least = place;
            }
        }
        least
    }
}
