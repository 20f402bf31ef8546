//! The cells of an object.

ghost use Rattle.std.specs.Prelude.{◌≡◌, ◌++◌, ◌∷◌, ◌<◌, [], IfOk, OnErr, OnOk, Some, false, length, map, option_copied, replicate, slice_get, slice_set};
ghost use Rattle.std.specs.List.{flat_map};
ghost use Rattle.vx_cond.specs.Cond.{IsCond, IsCondOf, IsInside, cond_at};
ghost use Rattle.vx_cond.specs.Leaves.{first_of, value_within};
ghost use Rattle.vx_heap.specs.Cells.{AreCells, AreCellsWithin, AreWritten, IsCell, IsCellInside, IsCellOf, IsCellWithin, cell_ids, cell_slot, cells_at};
ghost use Rattle.vx_heap.specs.declared.cell_list.Cell.TheVariants.{Plain};
ghost use Rattle.vx_list.specs.Places.{item_or};
ghost use Rattle.vx_space.specs.Sets.{Extends, IsKnown};
ghost use Rattle.vx_value.specs.Slot.{slot_cmp};
ghost use Rattle.vx_value.specs.declared.slot.Slot.TheVariants.{Top};

use std::alloc::{AllocError, Global};
use std::marker::Model;
use vx_cond::Cond;
use vx_list::or_cut_back;
use vx_space::{Space, SpaceFault};
use vx_value::Slot;

/// A cell: one value wherever its object is there, or one that differs by the configuration.
#[derive(Drop)]
pub enum Cell<S: Space> {
    Plain(Slot),
    Differs(Box<Cond<Slot, S>>),
}

/// The cells of an object in order. Contracts see the list of them.
#[derive(Drop)]
pub struct CellList<S: Space> {
    cells: Vec<Cell<S>>,
    /// Whether some cell may differ; so the ids of an object without such cells are found without a look at each.
    differs: bool,
}

impl<S: Space> Model for CellList<S> {
    ghost use Rattle.std.specs.Prelude.{◌≡◌, List, [], false};
    ghost use Rattle.std.specs.List.{flat_map};
    ghost use Rattle.vx_heap.specs.Cells.{cell_ids};
    ghost use Rattle.vx_heap.specs.declared.cell_list.Cell.{Cell};

    ghost Value = { List (Cell S S.Id) };

    ghost view = { λ l. l.cells.items };

    ghost invariant = { λ l. l.differs ≡ false → flat_map cell_ids l.cells.items ≡ [] };
}

impl<S: Space> CellList<S> {
    /// A cell for each of these values.
    pub fn of(alloc: Global, slots: &[Slot]) -> Result<CellList<S>, AllocError>
        ensures { IfOk result (λ l. l ≡ map Plain slots.now) }
    {
        let mut cells = Vec::with_capacity(alloc, slots.len())?;
        for slot in slots {
            cells.push(Cell::Plain(*slot))?;
        }
        Ok(CellList {
            cells,
            differs: false,
        })
    }

    /// So many cells with one value. They take 24 bytes each.
    pub fn filled(alloc: Global, slot: Slot, count: u32) -> Result<CellList<S>, AllocError>
        ensures { IfOk result (λ l. l ≡ replicate count (Plain slot)) }
    {
        let mut cells = Vec::with_capacity(alloc, count as usize)?;
        for _cell in 0..count {
            cells.push(Cell::Plain(slot))?;
        }
        Ok(CellList {
            cells,
            differs: false,
        })
    }

    fn allocator(&self) -> Global {
        *self.cells.allocator()
    }

    /// How many cells there are.
    pub fn len(&self) -> usize
        ensures { result ≡ length self.now }
    {
        self.cells.len()
    }

    fn get(&self, place: usize) -> Option<&Cell<S>>
        ensures { option_copied result ≡ slice_get self.now place }
    {
        self.cells.get(place)
    }

    /// The value of a cell inside a path, which is inside the presence of the object; `Top` where there is no such cell.
    pub fn read(
        &self,
        space: &mut S,
        place: usize,
        path: S::Id,
        presence: S::Id,
    ) -> Result<Cond<Slot, S>, SpaceFault>
        requires cells { AreCells (S.sets space.old) presence self.now }
        requires known { IsKnown (S.sets space.old) path }
        requires inside { IsInside (S.sets space.old) path presence }
        ensures extends { Extends (S.sets space.old) (S.sets space.new) }
        ensures ok { IfOk result (IsCondOf slot_cmp (S.sets space.new) (value_within (S.sets space.old) path (λ c. Some (item_or (cells_at (S.sets space.old) self.now c) place Top)))) }
    {
        match self.get(place) {
            Some(cell) => value_inside(self.allocator(), space, cell, path),
            None => {
                let nothing = Cond::one(self.allocator(), space, Slot::Top, path)?;
                Ok(nothing)
            }
        }
    }

    /// No cells yet, with room for so many.
    fn none(alloc: Global, count: usize) -> Result<CellList<S>, AllocError>
        ensures { IfOk result (λ l. l ≡ []) }
    {
        let cells = Vec::with_capacity(alloc, count)?;
        Ok(CellList {
            cells,
            differs: false,
        })
    }

    fn push(&mut self, cell: Cell<S>) -> Result<(), AllocError>
        ensures { OnOk result (self.new ≡ self.old ++ cell ∷ []) }
    {
        self.differs = may_differ(self.differs, &cell);
        self.cells.push(cell)?;
        Ok(())
    }

    /// The cells inside a path, which is inside the presence of the object: each has the value there that it had. They take 24
    /// bytes each, and those that differ there more.
    pub fn inside(
        &self,
        alloc: Global,
        space: &mut S,
        path: S::Id,
        presence: S::Id,
    ) -> Result<CellList<S>, SpaceFault>
        requires cells { AreCells (S.sets space.old) presence self.now }
        requires known { IsKnown (S.sets space.old) path }
        requires presence { IsKnown (S.sets space.old) presence }
        requires inside { IsInside (S.sets space.old) path presence }
        ensures extends { Extends (S.sets space.old) (S.sets space.new) }
        ensures ok { IfOk result (AreCellsWithin (S.sets space.old) (S.sets space.new) path self.now) }
    {
        let mut made = CellList::none(alloc, self.cells.len())?;
        put_inside(alloc, space, &self.cells, path, presence, &mut made)?;
        Ok(made)
    }

    fn set(&mut self, place: usize, cell: Cell<S>)
        requires { place < length self.old }
        ensures { self.new ≡ slice_set self.old place cell }
    {
        self.differs = may_differ(self.differs, &cell);
        self.cells[place] = cell;
    }

    /// Writes a value in its scope, which is inside the presence of the object, to a cell. Where there is no such cell,
    /// nothing changes. After want of memory the cells are as they were.
    pub fn write(
        &mut self,
        space: &mut S,
        place: u32,
        presence: S::Id,
        value: &Cond<Slot, S>,
    ) -> Result<(), SpaceFault>
        requires cells { AreCells (S.sets space.old) presence self.old }
        requires presence { IsKnown (S.sets space.old) presence }
        requires value { IsCond slot_cmp (S.sets space.old) value.now }
        requires inside { IsInside (S.sets space.old) value.now.scope presence }
        ensures extends { Extends (S.sets space.old) (S.sets space.new) }
        ensures ok { OnOk result (AreWritten (S.sets space.old) (S.sets space.new) presence self.old place value.now self.new) }
        ensures err { OnErr result (self.new ≡ self.old) }
    {
        let Some(before) = self.get(place as usize) else {
            return Ok(());
        };
        let made = written_over(self.allocator(), space, before, presence, value)?;
        let cell = cell_of(self.allocator(), made)?;
        self.set(place as usize, cell);
        Ok(())
    }

    /// Appends just the ids held. Want of memory leaves the list as it was.
    pub fn ids_out(&self, ids: &mut Vec<S::Id>) -> Result<(), AllocError>
        ensures ok { OnOk result (ids.new.items ≡ ids.old.items ++ flat_map cell_ids self.now) }
        ensures err { OnErr result (ids.new.items ≡ ids.old.items) }
    {
        if !self.differs {
            return Ok(());
        }
        cells_out(&self.cells, ids)
    }
}

/// The value of a cell inside a path, which is inside the presence of its object.
fn value_inside<S: Space>(
    alloc: Global,
    space: &mut S,
    cell: &Cell<S>,
    path: S::Id,
) -> Result<Cond<Slot, S>, SpaceFault>
    requires cell { IsCellInside (S.sets space.old) path cell.now }
    requires known { IsKnown (S.sets space.old) path }
    ensures extends { Extends (S.sets space.old) (S.sets space.new) }
    ensures ok { IfOk result (IsCondOf slot_cmp (S.sets space.new) (value_within (S.sets space.old) path (λ c. Some (cell_slot (S.sets space.old) c cell.now)))) }
{
    match cell {
        Cell::Plain(slot) => {
            let value = Cond::one(alloc, space, *slot, path)?;
            Ok(value)
        }
        Cell::Differs(cond) => {
            let value = cond.restrict(space, path)?;
            Ok(value)
        }
    }
}

/// A cell inside a path, which is inside the presence of its object.
fn cell_inside<S: Space>(
    alloc: Global,
    space: &mut S,
    cell: &Cell<S>,
    path: S::Id,
) -> Result<Cell<S>, SpaceFault>
    requires cell { IsCellInside (S.sets space.old) path cell.now }
    requires known { IsKnown (S.sets space.old) path }
    ensures extends { Extends (S.sets space.old) (S.sets space.new) }
    ensures ok { IfOk result (IsCellWithin (S.sets space.old) (S.sets space.new) path cell.now) }
{
    match cell {
        Cell::Plain(slot) => Ok(Cell::Plain(*slot)),
        Cell::Differs(cond) => {
            let value = cond.restrict(space, path)?;
            let inner = cell_of(alloc, value)?;
            Ok(inner)
        }
    }
}

/// Puts cells inside a path, which is inside the presence of their object, into a list that has none.
fn put_inside<S: Space>(
    alloc: Global,
    space: &mut S,
    cells: &[Cell<S>],
    path: S::Id,
    presence: S::Id,
    made: &mut CellList<S>,
) -> Result<(), SpaceFault>
    requires cells { AreCells (S.sets space.old) presence cells.now }
    requires known { IsKnown (S.sets space.old) path }
    requires presence { IsKnown (S.sets space.old) presence }
    requires inside { IsInside (S.sets space.old) path presence }
    requires none { made.old ≡ [] }
    ensures extends { Extends (S.sets space.old) (S.sets space.new) }
    ensures ok { OnOk result (AreCellsWithin (S.sets space.old) (S.sets space.new) path cells.now made.new) }
{
    for cell in cells {
        let inner = cell_inside(alloc, space, cell, path)?;
        made.push(inner)?;
    }
    Ok(())
}

/// The value of a cell where another one is written over it.
fn written_over<S: Space>(
    alloc: Global,
    space: &mut S,
    cell: &Cell<S>,
    presence: S::Id,
    value: &Cond<Slot, S>,
) -> Result<Cond<Slot, S>, SpaceFault>
    requires cell { IsCell (S.sets space.old) presence cell.now }
    requires presence { IsKnown (S.sets space.old) presence }
    requires value { IsCond slot_cmp (S.sets space.old) value.now }
    requires inside { IsInside (S.sets space.old) value.now.scope presence }
    ensures extends { Extends (S.sets space.old) (S.sets space.new) }
    ensures ok { IfOk result (IsCondOf slot_cmp (S.sets space.new) (first_of (cond_at (S.sets space.old) value.now) (value_within (S.sets space.old) presence (λ c. Some (cell_slot (S.sets space.old) c cell.now))))) }
{
    match cell {
        Cell::Plain(slot) => {
            let before = Cond::one(alloc, space, *slot, presence)?;
            let made = before.overwrite(space, value)?;
            Ok(made)
        }
        Cell::Differs(before) => {
            let made = before.overwrite(space, value)?;
            Ok(made)
        }
    }
}

/// Whether cells may differ where this one is among them, and the others may differ or not.
fn may_differ<S: Space>(others: bool, cell: &Cell<S>) -> bool
    ensures others { result ≡ false → others ≡ false }
    ensures cell { result ≡ false → cell_ids cell.now ≡ [] }
{
    others || matches!(cell, Cell::Differs(_))
}

/// The cell of a value.
fn cell_of<S: Space>(alloc: Global, value: Cond<Slot, S>) -> Result<Cell<S>, AllocError>
    ensures { IfOk result (IsCellOf value) }
{
    let leaves = value.leaves();
    if leaves.len() == 1 {
        return Ok(Cell::Plain(leaves[0].value));
    }
    let cond = Box::new(alloc, value)?;
    Ok(Cell::Differs(cond))
}

/// Appends the ids held by cells. Want of memory leaves the list as it was.
#[tactic(auto, using(std::proofs::lemmas::List::append_assoc, std::proofs::lemmas::List::take_at))]
fn cells_out<S: Space>(cells: &[Cell<S>], ids: &mut Vec<S::Id>) -> Result<(), AllocError>
    ensures ok { OnOk result (ids.new.items ≡ ids.old.items ++ flat_map cell_ids cells.now) }
    ensures err { OnErr result (ids.new.items ≡ ids.old.items) }
{
    let held = ids.len();
    for cell in cells {
        if let Cell::Differs(cond) = cell {
            or_cut_back(cond.ids_out(ids), ids, held)?;
        }
    }
    Ok(())
}
