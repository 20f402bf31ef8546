//! What an operation gave, from compaction to compaction.

ghost use Rattle.std.specs.Prelude.{◌≡◌, ℕ, [], List, Option, IfSome, true, false};
ghost use Rattle.vx_bdd.specs.declared.node.Node.{Node};
ghost use Rattle.vx_bdd.specs.declared.node.Op.{Op};
ghost use Rattle.vx_bdd.specs.Apply.{IsAnswer, AreRight, AreStillRight, KeepsRight};

use crate::node::Answer;
use std::alloc::{AllocError, Global};

/// The number of places that the first answer makes.
const FEWEST: usize = 64;

/// A bound on the number of places.
const MOST: usize = 1048576;

/// What each place says at first: each operation gives never of never and never.
const NOTHING: Answer = Answer { a: 0, b: 0, id: 0 };

/// How many answers come before the places are doubled, where so many of them are new, and there are so many in all: eight for each new
/// one, or more than ever come where there are to be no more.
fn answers_before_more(new: usize, all: usize) -> usize {
    if all < MOST {
        new.saturating_mul(8)
    } else {
        usize::MAX
    }
}

/// Answers of one operation, at places that their ids name. Each place has one, which gives way to the next that comes to it, so an
/// answer says no more than that it is right. The places are doubled when eight times as many answers have come, up to a bound: few
/// places are soon looked at, and where answers give way too early, more come.
#[derive(Drop)]
pub struct Cache {
    pub answers: Vec<Answer>,
    /// How many answers come before the places are doubled.
    left: usize,
}

#[tactic(auto, using(crate::proofs::CacheLaws::cache_laws))]
impl Cache {
    /// A cache with no answers, which allocates nothing.
    pub fn new(alloc: Global) -> Cache
        ensures { result.answers.items ≡ [] }
    {
        Cache {
            answers: Vec::new(alloc),
            left: 0,
        }
    }

    /// The place of two ids. Where there are places it is one of them, since their number is a power of two.
    fn place_of(&self, a: usize, b: usize) -> usize {
        let mixed = a
            .wrapping_mul(0x9e37_79b9_7f4a_7c15)
            .wrapping_add(b)
            .wrapping_mul(0xff51_afd7_ed55_8ccd);
        mixed >> 32 & self.answers.len().wrapping_sub(1)
    }

    /// The id of what the operation gives of two ids, where their place says it.
    pub fn get(&self, a: usize, b: usize) -> Option<usize>
        ensures { IfSome result (λ id. (op : Op) (options : ℕ) (slots : List (Option Node)) → AreRight op options slots self.now.answers.items → IsAnswer op options slots a b id) }
    {
        let place = self.place_of(a, b);
        if place >= self.answers.len() {
            return None;
        }
        let known = self.answers[place];
        if known.a != a || known.b != b {
            return None;
        }
        Some(known.id)
    }

    /// Puts an answer at its place. Where there is no memory for more places, those that there are stay.
    pub fn put(&mut self, answer: Answer)
        ensures { KeepsRight answer self.old.answers.items self.new.answers.items }
    {
        let _made = self.make_room();
        self.left = self.left.saturating_sub(1);
        self.place(answer);
    }

    /// Makes more places, where many answers came.
    fn make_room(&mut self) -> Result<(), AllocError>
        ensures { AreStillRight self.old.answers.items self.new.answers.items }
    {
        if self.left > 0 {
            return Ok(());
        }
        self.grow()
    }

    /// Makes the first places, or twice as many, and writes each answer at its new place.
    fn grow(&mut self) -> Result<(), AllocError>
        ensures { AreStillRight self.old.answers.items self.new.answers.items }
    {
        let places = self.answers.len();
        let more = places.max(FEWEST);
        let all = places.saturating_add(more);
        self.answers.resize(all, NOTHING)?;
        self.left = answers_before_more(more, all);
        for place in 0..places {
            self.place_again(place);
        }
        Ok(())
    }

    /// Writes the answer that stands at a place at its own place.
    fn place_again(&mut self, place: usize)
        ensures { AreStillRight self.old.answers.items self.new.answers.items }
    {
        if place >= self.answers.len() {
            return;
        }
        let answer = self.answers[place];
        self.place(answer);
    }

    /// Writes an answer at its place, if there are places.
    fn place(&mut self, answer: Answer)
        ensures { KeepsRight answer self.old.answers.items self.new.answers.items }
    {
        let place = self.place_of(answer.a, answer.b);
        if place >= self.answers.len() {
            return;
        }
        self.answers[place] = answer;
    }

    /// Forgets all answers, unless all ids were kept.
    pub fn forget(&mut self, all_kept: bool)
        ensures forgets { all_kept ≡ false → self.new.answers.items ≡ [] }
        ensures keeps { all_kept ≡ true → self.new.answers.items ≡ self.old.answers.items }
    {
        if all_kept {
            return;
        }
        self.answers.clear();
        self.left = 0;
    }
}
