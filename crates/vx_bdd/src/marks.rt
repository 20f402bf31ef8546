//! Marks of ids.

ghost use Rattle.std.specs.Prelude.{◌≡◌, ℕ, [], true, false, OnErr, OnOk, ◌<◌, if◌then◌else◌, length, nat_eq, slice_index_or};
ghost use Rattle.std.proofs.Props.{props};
ghost use Rattle.vx_bdd.specs.Stamps.{has_stamp, AreUpTo};

use std::alloc::{AllocError, Global};

/// Marks of ids. A mark is the number of the compaction that made it, so that none has to be taken away.
#[derive(Drop)]
pub struct Marks {
    pub stamps: Vec<u64>,
    pub current: u64,
    pub ghost past: { AreUpTo current stamps.items } by { Prim.hlevel props },
}

#[tactic(auto, using(crate::proofs::StampLaws::stamp_laws))]
impl Marks {
    /// No marks, and no memory.
    pub fn new(alloc: Global) -> Marks
        ensures stamps { result.stamps.items ≡ [] }
        ensures current { result.current ≡ 0 }
    {
        Marks {
            stamps: Vec::new(alloc),
            current: 0,
        }
    }

    /// Begins a compaction, which has no marks yet.
    pub fn begin(&mut self)
        ensures { (x : ℕ) → has_stamp self.new.stamps.items self.new.current x ≡ false }
    {
        if self.current == u64::MAX {
            self.stamps.clear();
            self.current = 1;
            return;
        }
        self.current += 1;
    }

    /// Whether an id is marked.
    pub fn has(&self, id: usize) -> bool
        ensures { result ≡ has_stamp self.now.stamps.items self.now.current id }
    {
        self.stamps.as_slice().get(id).copied().unwrap_or(0) == self.current
    }

    /// Makes the stamps reach to an id, which has none yet.
    fn reach(&mut self, id: usize) -> Result<(), AllocError>
        ensures stamps { (x : ℕ) → slice_index_or self.new.stamps.items x 0 ≡ slice_index_or self.old.stamps.items x 0 }
        ensures current { self.new.current ≡ self.old.current }
        ensures reached { OnOk result (id < length self.new.stamps.items) }
    {
        if id < self.stamps.len() {
            return Ok(());
        }
        self.stamps.resize(id.saturating_add(1), 0)?;
        Ok(())
    }

    /// Marks an id. Want of memory leaves the marks as they were.
    pub fn add(&mut self, id: usize) -> Result<(), AllocError>
        ensures ok { OnOk result ((x : ℕ) → has_stamp self.new.stamps.items self.new.current x ≡ (if nat_eq id x then true else has_stamp self.old.stamps.items self.old.current x)) }
        ensures err { OnErr result ((x : ℕ) → has_stamp self.new.stamps.items self.new.current x ≡ has_stamp self.old.stamps.items self.old.current x) }
    {
        self.reach(id)?;
        self.stamps[id] = self.current;
        Ok(())
    }
}
