//! The order in which configurations meet as late as they can.

ghost use Rattle.std.specs.Prelude.{◌<◌, length};

use vx_sched::Picker;
use vx_value::Key;

/// Chooses the group whose key is last.
#[derive(Clone, Copy, Debug)]
pub struct LastKey;

impl Picker for LastKey {
    ghost picks = { λ keys place. place < length keys };

    /// The last key's place.
    fn pick(&mut self, keys: &[Key]) -> usize
        requires { 0 < length keys.now }
        ensures in_range { result < length keys.now }
        ensures picked { result < length keys.now }
    {
        let mut last = 0;
        for place in 1..keys.len() {
            if keys[last] < keys[place] {
                last = place;
            }
        }
        last
    }
}
