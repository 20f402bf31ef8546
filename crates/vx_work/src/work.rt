//! How much work operations may still be.

ghost use Rattle.std.specs.Prelude.{◌≡◌, ◌≤◌, ◌+◌, ◌-◌, ◌^◌, max, min};

/// How much work operations on sets may still be: so many pairs of sets may be looked at, to which an operation on two sets comes
/// as it goes down both diagrams.
#[derive(Clone, Copy, Debug)]
pub struct Work {
    pub left: u64,
}

/// What a share has in any case.
const LEAST_SHARE: u64 = 64;

impl Work {
    /// That of so many pairs.
    pub fn of(pairs: u64) -> Work
        ensures { result.left ≡ pairs }
    {
        Work { left: pairs }
    }

    /// Takes so many pairs.
    pub fn spend(&mut self, pairs: u64)
        requires { pairs ≤ self.old.left }
        ensures { self.new.left ≡ self.old.left - pairs }
    {
        self.left -= pairs;
    }

    /// Takes up to so many pairs out, for a part of what is to be done.
    pub fn taken(&mut self, pairs: u64) -> Work
        ensures part { result.left ≡ min pairs self.old.left }
        ensures rest { self.new.left ≡ self.old.left - pairs }
    {
        let part = pairs.min(self.left);
        self.left -= part;
        Work { left: part }
    }

    /// Takes out a share: up to so many pairs, but at least a few where so many aren't left.
    pub fn share(&mut self, most: u64) -> Work
        ensures { result.left ≡ max (min most self.old.left) 64 }
    {
        let part = self.taken(most);
        Work {
            left: part.left.max(LEAST_SHARE),
        }
    }

    /// Puts back what is left of a part, as far as there is room for it.
    pub fn put_back(&mut self, part: Work)
        ensures { self.new.left ≡ min (self.old.left + part.left) (2 ^ 64 - 1) }
    {
        self.left = self.left.saturating_add(part.left);
    }
}
