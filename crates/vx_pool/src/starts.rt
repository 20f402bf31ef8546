//! The places where the instructions of a code stand, each found by its mark (JVMS 4.9.1).

ghost use Rattle.std.specs.Prelude.{◌≡◌, ◌<◌, All, IfOk};
ghost use Rattle.vx_pool.specs.Instructions.{is_start};
ghost use Rattle.vx_pool.specs.Marks.{AreMarks};

use std::alloc::{AllocError, Global};
use std::marker::Model;
use vx_list::Items;

/// The places where the instructions of a code stand. Contracts see the list of them.
#[derive(Drop)]
pub struct Starts {
    places: Items<u32>,
    // Whether an instruction stands at each place of the code.
    marks: Vec<bool>,
}

impl Model for Starts {
    ghost use Rattle.std.specs.Prelude.{ℕ, List};
    ghost use Rattle.vx_pool.specs.Marks.{AreMarks};

    ghost Value = { List ℕ };

    ghost view = { λ starts. starts.places };

    ghost invariant = { λ starts. AreMarks starts.marks.items starts.places };
}

/// So many places, of which some are marked.
fn marks_of(alloc: Global, places: &[u32], count: usize) -> Result<Vec<bool>, AllocError>
    requires { All (λ place. place < count) places.now }
    ensures { IfOk result (λ marks. AreMarks marks.items places.now) }
{
    let mut marks = vec![in alloc; false; count]?;
    for place in places {
        marks[*place as usize] = true;
    }
    Ok(marks)
}

impl Starts {
    /// Places of a code of so many bytes.
    pub fn of(alloc: Global, places: Items<u32>, count: usize) -> Result<Starts, AllocError>
        requires { All (λ place. place < count) places }
        ensures { IfOk result (λ starts. starts ≡ places) }
    {
        let marks = marks_of(alloc, places.as_slice(), count)?;
        Ok(Starts { places, marks })
    }

    /// The places in their order.
    pub fn as_slice(&self) -> &[u32]
        ensures { result.now ≡ self.now }
    {
        self.places.as_slice()
    }

    /// Whether an instruction stands at a place.
    pub fn has(&self, place: u32) -> bool
        ensures { result ≡ is_start self.now place }
    {
        let place = place as usize;
        place < self.marks.len() && self.marks[place]
    }
}
