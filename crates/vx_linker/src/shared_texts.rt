//! The texts of a constant pool that the members of a class name, each kept once.

ghost use Rattle.std.specs.Prelude.{◌≡◌, IfOk, OnErr};
ghost use Rattle.vx_link.specs.Names.{utf8};
ghost use Rattle.vx_linker.specs.Texts.{AreTexts};

use std::alloc::{AllocError, Global};
use vx_link::SharedName;
use vx_link::class_names::utf8;
use vx_pool::Pool;

/// The texts of a pool that members have named so far, at the places of their entries.
#[derive(Drop)]
pub struct SharedTexts {
    known: Vec<Option<SharedName>>,
}

impl SharedTexts {
    /// A place for each entry of a pool, none of whose texts is named yet.
    pub fn none(alloc: Global, pool: &Pool) -> Result<SharedTexts, AllocError>
        ensures { IfOk result (λ texts. AreTexts pool.now texts.known.items) }
    {
        let count = pool.entries.len();
        let mut known = Vec::with_capacity(alloc, count)?;
        for _place in 0..count {
            known.push(None)?;
        }
        Ok(SharedTexts { known })
    }

    /// Keeps the text of an entry, where the pool has it.
    fn keep(&mut self, pool: &Pool, index: u16, text: SharedName)
        requires texts { AreTexts pool.now self.old.known.items }
        requires text { text ≡ utf8 pool.now index }
        ensures { AreTexts pool.now self.new.known.items }
    {
        let place = index as usize;
        if place < self.known.len() {
            self.known[place] = Some(text);
        }
    }

    /// The text of an entry. It is copied only where no member has named it yet. Want of memory leaves the table as it was.
    pub fn text(&mut self, alloc: Global, pool: &Pool, index: u16) -> Result<SharedName, AllocError>
        requires { AreTexts pool.now self.old.known.items }
        ensures text { IfOk result (λ text. text ≡ utf8 pool.now index) }
        ensures texts { AreTexts pool.now self.new.known.items }
        ensures err { OnErr result (self.new ≡ self.old) }
    {
        if let Some(Some(text)) = self.known.get(index as usize) {
            return text.share();
        }
        let text = SharedName::of(alloc, utf8(pool, index))?;
        self.keep(pool, index, text.share()?);
        Ok(text)
    }
}
