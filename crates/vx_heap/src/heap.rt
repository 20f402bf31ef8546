//! The heap, its statics and its initialisation states.

ghost use Rattle.std.specs.Prelude.{◌≡◌, ◌++◌, ◌∷◌, ◌<◌, ◌≤◌, ◌≤ℤ◌, negsuc, pos, [], length, map, IfOk, OnOk, OnErr, List, Bool, true, option_map, slice_set, if◌then◌else◌};
ghost use Rattle.vx_space.specs.Sets.{IsKnown, Extends};
ghost use Rattle.std.specs.List.{flat_map, list_all};
ghost use Rattle.vx_cond.specs.Cond.{IsCond, IsInside, cond_ids};
ghost use Rattle.vx_value.specs.Slot.{slot_cmp, init_state_cmp};
ghost use Rattle.vx_value.specs.Texts.{text_at};
ghost use Rattle.vx_initial_heap.specs.First.{is_among, value_in};
ghost use Rattle.vx_java.specs.FirstObjects.{first_boolean, first_integer, new_object};
ghost use Rattle.vx_java.specs.Ids.{HasClassNumbers, as_class};
ghost use Rattle.vx_java.specs.Machine.{length_bound};
ghost use Rattle.vx_link.specs.ClassNames.{class_named};
ghost use Rattle.vx_link.specs.CoreFiles.{core_count};
ghost use Rattle.vx_link.specs.Names.{class_name, member};
ghost use Rattle.vx_link.specs.Parts.{class_at};
ghost use Rattle.vx_list.specs.Places.{item_or};
ghost use Rattle.vx_heap.specs.Changing.{IsCellWritten, IsMadeAt, IsValueHeld, MakesObject, filled, named_object, of_cells, of_text};
ghost use Rattle.vx_heap.specs.First.{IsFirstHeap};
ghost use Rattle.vx_heap.specs.Heap.{IsHeap, IsHeapFor, IsCellRead, IsStaticRead, IsStaticWritten, IsInitWritten, IsTextPut, KeepsPlain, class_at_slot, has_options, heap_ids, init_of, is_held, literal_at, object_ids, object_in, resolved_in, static_of};
ghost use Rattle.vx_cond.specs.Slots.{slot_at};

use crate::cell_list::CellList;
use crate::defaults::new_slots;
use crate::lifted::lifted_first;
use crate::object::HeapObject;
use std::alloc::{AllocError, Global};
use std::marker::Model;
use vx_cond::{Cond, Projects};
use vx_initial_heap::First;
use vx_java::{class_named, name_of_entry};
use vx_link::Program;
use vx_list::{Items, or_cut_back};
use vx_references::{class_table, owner_entry};
use vx_space::{Space, SpaceFault};
use vx_value::{ClassId, Exact, FieldId, InitState, Slot, TextTable};

/// The heap of all configurations. It is made for one program and doesn't hold its space.
#[derive(Drop)]
pub struct Heap<S: Space> {
    objects: Vec<HeapObject<S>>,
    statics: Vec<Cond<Slot, S>>,
    inits: Vec<Cond<InitState, S>>,
    texts: TextTable,
    allowed: S::Id,
    literals: Vec<Items<u64>>,
    resolved: Vec<Items<Option<ClassId>>>,
    words: u64,
}

impl<S: Space> Model for Heap<S> {
    ghost use Rattle.vx_heap.specs.Heap.{HeapView};

    ghost Value = { HeapView S S.Id };

    ghost view = { λ h. record { objects = h.objects.items; statics = h.statics.items; inits = h.inits.items; texts = h.texts.texts; allowed = h.allowed; literals = h.literals.items; resolved = h.resolved.items; words = h.words } };
}

impl<S: Space> Heap<S> {
    /// The heap with which runs of these configurations begin: the first objects, static fields with their constants, the
    /// options' fields with the values of the options, and the core classes initialised (JVMS 5.1, 5.2, 5.3).
    pub fn new(
        alloc: Global,
        program: &Program,
        space: &mut S,
        allowed: S::Id,
    ) -> Result<Heap<S>, SpaceFault>
        requires known { IsKnown (S.sets space.old) allowed }
        requires options { has_options (S.sets space.old).options program.now.fields ≡ true }
        requires classes { HasClassNumbers program.now }
        requires core { core_count ≤ length program.now.classes }
        ensures extends { Extends (S.sets space.old) (S.sets space.new) }
        ensures first { IfOk result (IsFirstHeap program.now (S.sets space.new) allowed) }
    {
        let resolved = class_table(alloc, program)?;
        let first = First::of(alloc, program)?;
        let lifted = lifted_first(alloc, space, &first, allowed)?;
        Ok(Heap {
            objects: lifted.objects,
            statics: lifted.statics,
            inits: lifted.inits,
            texts: first.texts,
            allowed,
            literals: first.literals,
            resolved,
            words: first.words,
        })
    }

    fn object(&self, reference: u64) -> &HeapObject<S>
        requires { reference < length self.now.objects }
        ensures { result.now ≡ object_in self.now reference }
    {
        &self.objects[reference as usize]
    }

    /// The class of an object.
    pub fn class_of(&self, reference: u64) -> ClassId
        requires { reference < length self.now.objects }
        ensures { result ≡ (object_in self.now reference).class }
    {
        self.objects[reference as usize].class
    }

    /// The class of the object that a slot names, or `None` where it names none. It takes any slot, so that a closure may ask it.
    pub fn class_at(&self, slot: Slot) -> Option<ClassId>
        ensures { result ≡ class_at_slot self.now slot }
    {
        match slot {
            Slot::Ref(reference) => match self.objects.get(reference as usize) {
                Some(object) => Some(object.class),
                None => None,
            },
            _ => None,
        }
    }

    /// The number of elements of an array, and 0 for another object or where there is none of this number.
    pub fn length_of(&self, reference: u64) -> u32
        ensures { result ≡ (object_in self.now reference).length }
    {
        match self.objects.get(reference as usize) {
            Some(object) => object.length,
            None => 0,
        }
    }

    /// How many cells an object has: an array one for each element, another object one for each field. 0 where there is none of this number.
    pub fn cell_count(&self, reference: u64) -> usize
        ensures { result ≡ length (object_in self.now reference).cells }
    {
        match self.objects.get(reference as usize) {
            Some(object) => object.cells.len(),
            None => 0,
        }
    }

    /// The configurations in which an object is there.
    pub fn presence(&self, reference: u64) -> S::Id
        requires { reference < length self.now.objects }
        ensures { result ≡ (object_in self.now reference).presence }
    {
        self.objects[reference as usize].presence
    }

    /// The object of a string literal or of a class name, by a class and an entry of its pool.
    pub fn literal(&self, class: ClassId, entry: u16) -> u64
        requires class { class.0 < length self.now.literals }
        requires entry { entry < length (item_or self.now.literals class.0 []) }
        ensures { result ≡ literal_at self.now class.0 entry }
    {
        self.literals[class.0 as usize].as_slice()[entry as usize]
    }

    fn resolved_in(&self, class: ClassId, entry: u16) -> Option<Option<ClassId>>
        ensures { result ≡ resolved_in self.now class.0 entry }
    {
        match self.resolved.get(class.0 as usize) {
            Some(row) => row.get(entry as usize).copied(),
            None => None,
        }
    }

    /// The class that an entry of the pool of a class names in the program (JVMS 5.4.3.1). It was found when the heap was made.
    pub fn resolved(&self, program: &Program, class: ClassId, entry: u16) -> Option<ClassId>
        requires classes { HasClassNumbers program.now }
        requires for_program { IsHeapFor program.now self.now }
        ensures { result ≡ option_map as_class (class_named program.now (class_name (class_at program.now class.0).pool entry)) }
    {
        match self.resolved_in(class, entry) {
            Some(found) => found,
            None => class_named(program, name_of_entry(program, class, entry)),
        }
    }

    /// The class that a member's entry of the pool of a class names, in which the member is looked for (JVMS 5.4.3.2, 5.4.3.3).
    pub fn owner(&self, program: &Program, class: ClassId, entry: u16) -> Option<ClassId>
        requires classes { HasClassNumbers program.now }
        requires for_program { IsHeapFor program.now self.now }
        ensures { result ≡ option_map as_class (class_named program.now (member (class_at program.now class.0).pool entry).class) }
    {
        self.resolved(program, class, owner_entry(program, class, entry))
    }

    /// The Integer object of a value from -128 to 127.
    pub fn first_integer(&self, value: i32) -> u64
        requires low { negsuc 127 ≤ℤ value }
        requires high { value ≤ℤ pos 127 }
        ensures { result ≡ first_integer value }
    {
        (value + 130) as u64
    }

    /// The Boolean object of a value.
    pub fn first_boolean(&self, value: bool) -> u64
        ensures { result ≡ first_boolean (if value then 1 else 0) }
    {
        258 + u64::from(value)
    }

    /// The empty array for main.
    pub fn first_words(&self) -> u64
        ensures { result ≡ self.now.words }
    {
        self.words
    }

    /// The value of the cell at a place inside a path, which is inside the presence of the object. A cell that isn't there is `Top`.
    pub fn read_place(
        &self,
        space: &mut S,
        reference: u64,
        place: usize,
        path: S::Id,
    ) -> Result<Cond<Slot, S>, SpaceFault>
        requires heap { IsHeap (S.sets space.old) self.now }
        requires reference { reference < length self.now.objects }
        requires known { IsKnown (S.sets space.old) path }
        requires inside { IsInside (S.sets space.old) path (object_in self.now reference).presence }
        ensures extends { Extends (S.sets space.old) (S.sets space.new) }
        ensures ok { IfOk result (IsCellRead (S.sets space.old) (S.sets space.new) self.now reference place path) }
    {
        let object = self.object(reference);
        let value = object.cells.read(space, place, path, object.presence)?;
        Ok(value)
    }

    /// The same of a place that an instruction names by 32 bits.
    pub fn read_cell(
        &self,
        space: &mut S,
        reference: u64,
        cell: u32,
        path: S::Id,
    ) -> Result<Cond<Slot, S>, SpaceFault>
        requires heap { IsHeap (S.sets space.old) self.now }
        requires reference { reference < length self.now.objects }
        requires known { IsKnown (S.sets space.old) path }
        requires inside { IsInside (S.sets space.old) path (object_in self.now reference).presence }
        ensures extends { Extends (S.sets space.old) (S.sets space.new) }
        ensures ok { IfOk result (IsCellRead (S.sets space.old) (S.sets space.new) self.now reference cell path) }
    {
        self.read_place(space, reference, cell as usize, path)
    }

    /// Writes a cell in the scope of the value, which is inside the presence of the object. Where there is no such cell,
    /// nothing changes. After want of memory the heap is as it was.
    pub fn write_cell(
        &mut self,
        space: &mut S,
        reference: u64,
        cell: u32,
        value: &Cond<Slot, S>,
    ) -> Result<(), SpaceFault>
        requires heap { IsHeap (S.sets space.old) self.old }
        requires reference { reference < length self.old.objects }
        requires value { IsCond slot_cmp (S.sets space.old) value.now }
        requires inside { IsInside (S.sets space.old) value.now.scope (object_in self.old reference).presence }
        requires held { IsValueHeld (S.sets space.old) self.old value.now }
        ensures extends { Extends (S.sets space.old) (S.sets space.new) }
        ensures ok { OnOk result (IsCellWritten (S.sets space.old) (S.sets space.new) self.old reference cell value.now self.new) }
        ensures err { OnErr result (self.new ≡ self.old) }
    {
        let object = &mut self.objects[reference as usize];
        object.cells.write(space, cell, object.presence, value)
    }

    /// Makes an object behind the others, in the configurations in which it is to be there.
    fn append(
        &mut self,
        class: ClassId,
        size: u32,
        presence: S::Id,
        cells: CellList<S>,
    ) -> Result<u64, AllocError>
        ensures made { IfOk result (λ reference. reference ≡ length self.old.objects) }
        ensures ok { OnOk result (self.new ≡ record self.old { objects = self.old.objects ++ record { class = class; length = size; presence = presence; cells = cells } ∷ [] }) }
        ensures err { OnErr result (self.new ≡ self.old) }
    {
        let reference = self.objects.len() as u64;
        self.objects.push(HeapObject {
            class,
            length: size,
            presence,
            cells,
        })?;
        Ok(reference)
    }

    /// Makes an object of a class in the configurations of a path, with the cells that it begins with (JVMS 2.3, 2.4, 6.5
    /// new). After want of memory the heap is given up.
    pub fn alloc_object(
        &mut self,
        alloc: Global,
        program: &Program,
        class: ClassId,
        path: S::Id,
    ) -> Result<u64, SpaceFault>
        ensures { IfOk result (MakesObject self.old path (new_object program.now class.0) self.new) }
    {
        let empty = self.put_text(&[])?;
        let slots = new_slots(alloc, program, class, empty)?;
        let cells = CellList::of(alloc, &slots)?;
        let reference = self.append(class, 0, path, cells)?;
        Ok(reference)
    }

    /// Makes an array in the configurations of a path, each element with one value, which names nothing. It takes 24 bytes
    /// for an element. After want of memory the heap is as it was.
    pub fn alloc_array(
        &mut self,
        alloc: Global,
        class: ClassId,
        count: u32,
        element: Slot,
        path: S::Id,
    ) -> Result<u64, AllocError>
        requires count { count ≤ length_bound }
        requires element { is_among 0 0 element ≡ true }
        ensures ok { IfOk result (MakesObject self.old path (filled class.0 count (value_in [] element)) self.new) }
        ensures err { OnErr result (self.new ≡ self.old) }
    {
        let cells = CellList::filled(alloc, element, count)?;
        let reference = self.append(class, count, path, cells)?;
        Ok(reference)
    }

    /// Makes an object of the class of strings in the configurations of a path, with this text (JVMS 5.1). After want of
    /// memory the heap is given up.
    pub fn alloc_text(
        &mut self,
        alloc: Global,
        class: ClassId,
        units: &[u16],
        path: S::Id,
    ) -> Result<u64, SpaceFault>
        ensures { IfOk result (MakesObject self.old path (of_text class.0 units.now) self.new) }
    {
        let text = self.put_text(units)?;
        let cells = CellList::of(alloc, &[Slot::Text(text)])?;
        let reference = self.append(class, 0, path, cells)?;
        Ok(reference)
    }

    /// Makes an object in the configurations of a path, with a cell for each of these values, which name no object, and no text that
    /// isn't there; of an array its length is no more than that. After want of memory the heap is as it was.
    pub fn alloc_cells(
        &mut self,
        alloc: Global,
        class: ClassId,
        size: u32,
        slots: &[Slot],
        path: S::Id,
    ) -> Result<u64, AllocError>
        requires size { size ≤ length_bound }
        requires enough { size ≤ length slots.now }
        requires slots { list_all (is_among 0 (length self.old.texts)) slots.now ≡ true }
        ensures ok { IfOk result (MakesObject self.old path (of_cells class.0 size (map (value_in self.old.texts) slots.now)) self.new) }
        ensures err { OnErr result (self.new ≡ self.old) }
    {
        let cells = CellList::of(alloc, slots)?;
        let reference = self.append(class, size, path, cells)?;
        Ok(reference)
    }

    /// Makes a copy of an object in the configurations of a path, which is inside its presence: of its class and length, with the
    /// values that its cells have there (JVMS 6.4.4, JLS 10.7). It takes 24 bytes for a cell, and more for one that differs there.
    /// After want of memory the heap is as it was.
    pub fn copy_object(
        &mut self,
        alloc: Global,
        space: &mut S,
        object: u64,
        path: S::Id,
    ) -> Result<u64, SpaceFault>
        requires heap { IsHeap (S.sets space.old) self.old }
        requires object { object < length self.old.objects }
        requires known { IsKnown (S.sets space.old) path }
        requires inside { IsInside (S.sets space.old) path (object_in self.old object).presence }
        ensures extends { Extends (S.sets space.old) (S.sets space.new) }
        ensures ok { IfOk result (IsMadeAt (S.sets space.old) (S.sets space.new) self.old path (named_object (S.sets space.old) self.old object) self.new) }
        ensures err { OnErr result (self.new ≡ self.old) }
    {
        let original = self.object(object);
        let class = original.class;
        let size = original.length;
        let presence = original.presence;
        let cells = original.cells.inside(alloc, space, path, presence)?;
        let copy = self.append(class, size, path, cells)?;
        Ok(copy)
    }

    fn static_at(&self, field: FieldId) -> &Cond<Slot, S>
        requires { field.0 < length self.now.statics }
        ensures { result.now ≡ static_of self.now field.0 }
    {
        &self.statics[field.0 as usize]
    }

    fn set_static(&mut self, field: FieldId, value: Cond<Slot, S>)
        requires { field.0 < length self.old.statics }
        ensures { self.new ≡ record self.old { statics = slice_set self.old.statics field.0 value } }
    {
        self.statics[field.0 as usize] = value;
    }

    fn set_states(&mut self, class: ClassId, states: Cond<InitState, S>)
        requires { class.0 < length self.old.inits }
        ensures { self.new ≡ record self.old { inits = slice_set self.old.inits class.0 states } }
    {
        self.inits[class.0 as usize] = states;
    }

    /// The value of a static field inside a path, which is inside the configurations that run.
    pub fn read_static(
        &self,
        space: &mut S,
        field: FieldId,
        path: S::Id,
    ) -> Result<Cond<Slot, S>, SpaceFault>
        requires heap { IsHeap (S.sets space.old) self.now }
        requires field { field.0 < length self.now.statics }
        requires known { IsKnown (S.sets space.old) path }
        requires inside { IsInside (S.sets space.old) path self.now.allowed }
        ensures extends { Extends (S.sets space.old) (S.sets space.new) }
        ensures ok { IfOk result (IsStaticRead (S.sets space.old) (S.sets space.new) self.now field.0 path) }
    {
        let value = self.static_at(field).restrict(space, path)?;
        Ok(value)
    }

    /// Writes a static field in the scope of the value, which is inside the configurations that run. After want of memory
    /// the heap is given up.
    pub fn write_static(
        &mut self,
        space: &mut S,
        field: FieldId,
        value: &Cond<Slot, S>,
    ) -> Result<(), SpaceFault>
        requires heap { IsHeap (S.sets space.old) self.old }
        requires field { field.0 < length self.old.statics }
        requires value { IsCond slot_cmp (S.sets space.old) value.now }
        requires inside { IsInside (S.sets space.old) value.now.scope self.old.allowed }
        requires held { (c : List Bool) → (S.sets space.old).test value.now.scope c ≡ true → is_held (S.sets space.old) self.old c (slot_at (S.sets space.old) value.now c) ≡ true }
        ensures extends { Extends (S.sets space.old) (S.sets space.new) }
        ensures ok { OnOk result (IsStaticWritten (S.sets space.old) (S.sets space.new) self.old field.0 value.now self.new) }
    {
        let written = self.static_at(field).overwrite(space, value)?;
        self.set_static(field, written);
        Ok(())
    }

    /// How far the initialisation of a class has come.
    pub fn init_state(&self, class: ClassId) -> &Cond<InitState, S>
        requires { class.0 < length self.now.inits }
        ensures { result.now ≡ init_of self.now class.0 }
    {
        &self.inits[class.0 as usize]
    }

    /// Gives a class other states in their scope, which is inside the configurations that run. After want of memory the
    /// heap is given up.
    pub fn set_init(
        &mut self,
        space: &mut S,
        class: ClassId,
        states: &Cond<InitState, S>,
    ) -> Result<(), SpaceFault>
        requires heap { IsHeap (S.sets space.old) self.old }
        requires class { class.0 < length self.old.inits }
        requires states { IsCond init_state_cmp (S.sets space.old) states.now }
        requires inside { IsInside (S.sets space.old) states.now.scope self.old.allowed }
        ensures extends { Extends (S.sets space.old) (S.sets space.new) }
        ensures ok { OnOk result (IsInitWritten (S.sets space.old) (S.sets space.new) self.old class.0 states.now self.new) }
    {
        let written = self.init_state(class).overwrite(space, states)?;
        self.set_states(class, written);
        Ok(())
    }

    /// The table of texts.
    pub fn texts(&self) -> &TextTable
        ensures { result.now.texts ≡ self.now.texts }
    {
        &self.texts
    }

    /// The number of a text, which is put into the table unless it is there already. Earlier numbers keep their texts, and
    /// no plain heap, static or initialisation state changes. After want of memory the heap is as it was.
    pub fn put_text(&mut self, units: &[u16]) -> Result<u64, AllocError>
        ensures ok { IfOk result (λ number. IsTextPut self.old units.now number self.new) }
        ensures keeps { KeepsPlain self.old self.new }
        ensures err { OnErr result (self.new ≡ self.old) }
    {
        self.texts.put(units)
    }

    /// The number of a text with units behind it, which is put into the table as by `put_text`. After want of memory the heap is as it was.
    pub fn append_text(&mut self, number: u64, units: &[u16]) -> Result<u64, AllocError>
        requires { number < length self.old.texts }
        ensures ok { IfOk result (λ appended. IsTextPut self.old (text_at self.old.texts number ++ units.now) appended self.new) }
        ensures keeps { KeepsPlain self.old self.new }
        ensures err { OnErr result (self.new ≡ self.old) }
    {
        self.texts.append(number, units)
    }

    /// Appends just the ids held: the set of all configurations that run, then those of objects, statics and
    /// initialisation states. Want of memory leaves the list as it was.
    #[tactic(auto, using(std::proofs::lemmas::List::append_assoc, std::proofs::lemmas::List::take_at))]
    pub fn ids_out(&self, ids: &mut Vec<S::Id>) -> Result<(), AllocError>
        ensures ok { OnOk result (ids.new.items ≡ ids.old.items ++ heap_ids self.now) }
        ensures err { OnErr result (ids.new.items ≡ ids.old.items) }
    {
        let held = ids.len();
        ids.push(self.allowed)?;
        or_cut_back(objects_out(&self.objects, ids), ids, held)?;
        or_cut_back(conds_out(&self.statics, ids), ids, held)?;
        or_cut_back(conds_out(&self.inits, ids), ids, held)
    }
}

impl<S: Space> Projects<S> for Heap<S> {
    ghost use Rattle.vx_heap.specs.Heap.{Globals, globals_at, heap_ids};
    ghost use Rattle.vx_heap.specs.Keeping.{globals_at-kept};

    ghost Plain = { Globals };

    ghost ids = { heap_ids };

    ghost plain = { globals_at };

    ghost keeping = { globals_at-kept };

    fn ids_out(&self, out: &mut Vec<S::Id>) -> Result<(), AllocError> {
        Heap::ids_out(self, out)
    }
}

/// Appends the ids held by an object. Want of memory leaves the list as it was.
#[tactic(auto, using(std::proofs::lemmas::List::append_assoc, std::proofs::lemmas::List::take_at))]
fn object_out<S: Space>(object: &HeapObject<S>, ids: &mut Vec<S::Id>) -> Result<(), AllocError>
    ensures ok { OnOk result (ids.new.items ≡ ids.old.items ++ object_ids object.now) }
    ensures err { OnErr result (ids.new.items ≡ ids.old.items) }
{
    let held = ids.len();
    ids.push(object.presence)?;
    or_cut_back(object.cells.ids_out(ids), ids, held)
}

/// Appends the ids held by objects. Want of memory leaves the list as it was.
#[tactic(auto, using(std::proofs::lemmas::List::append_assoc, std::proofs::lemmas::List::take_at))]
fn objects_out<S: Space>(objects: &[HeapObject<S>], ids: &mut Vec<S::Id>) -> Result<(), AllocError>
    ensures ok { OnOk result (ids.new.items ≡ ids.old.items ++ flat_map object_ids objects.now) }
    ensures err { OnErr result (ids.new.items ≡ ids.old.items) }
{
    let held = ids.len();
    for object in objects {
        or_cut_back(object_out(object, ids), ids, held)?;
    }
    Ok(())
}

/// Appends the ids held by conditional values. Want of memory leaves the list as it was.
#[tactic(auto, using(std::proofs::lemmas::List::append_assoc, std::proofs::lemmas::List::take_at))]
fn conds_out<T: Exact, S: Space>(
    conds: &[Cond<T, S>],
    ids: &mut Vec<S::Id>,
) -> Result<(), AllocError>
    ensures ok { OnOk result (ids.new.items ≡ ids.old.items ++ flat_map cond_ids conds.now) }
    ensures err { OnErr result (ids.new.items ≡ ids.old.items) }
{
    let held = ids.len();
    for cond in conds {
        or_cut_back(cond.ids_out(ids), ids, held)?;
    }
    Ok(())
}
