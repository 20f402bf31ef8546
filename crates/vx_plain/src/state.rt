//! The plain state of a run (JVMS 2.5).

ghost use Rattle.std.specs.Prelude.{◌≡◌, ◌+◌, ◌<◌, ◌^◌, ◌∷◌, [], IfOk, IfSome, MatchOption, OnErr, OnOk, drop, length, map, option_map, slice_get, slice_set};
ghost use Rattle.vx_java.specs.Initialisation.{quiet_chain};
ghost use Rattle.vx_java.specs.Library.{number_in};
ghost use Rattle.vx_java.specs.Locals.{with_locals};
ghost use Rattle.vx_java.specs.Machine.{Text, Top, at_position, cell_at, current_class, depth, init_at, next_object, object_at, stack_size, with_cell, with_inits, with_objects, with_static};
ghost use Rattle.vx_java.specs.Texts.{units_in};
ghost use Rattle.vx_list.specs.Places.{item_or};
ghost use Rattle.vx_plain.specs.Frames.{HasNoCaller, with_frame};
ghost use Rattle.vx_plain.specs.Views.{frame_of, object_of, state_of, value_of, values_of};

use crate::frame::Frame;
use crate::limits::held;
use crate::object::Object;
use crate::value::Value;
use std::alloc::{AllocError, Global};
use vx_java::parts::class_of_method;
use vx_java::quiet_chain;
use vx_link::Program;
use vx_value::{ClassId, FieldId, InitState, Kind};

/// A state: a reference is a place in the heap; a value for each field, of which the static ones count; an initialisation state for
/// each class; the frame on top, and its callers, the nearest last.
#[derive(Drop)]
pub struct State {
    pub heap: Vec<Object>,
    pub statics: Vec<Value>,
    pub inits: Vec<InitState>,
    pub top: Frame,
    pub callers: Vec<Frame>,
}

impl State {
    /// How many frames it has.
    #[tactic(auto, using(crate::proofs::Heaps::frame_count), unfolding(crate::specs::Views::state_of))]
    pub fn depth(&self) -> usize
        ensures { result ≡ depth (state_of self.now) }
    {
        self.callers.len() + 1
    }

    // ---- objects

    /// The number of the object that is made next.
    #[tactic(auto, unfolding(crate::specs::Views::state_of))]
    pub fn next_object(&self) -> u64
        ensures place { result ≡ next_object (state_of self.now) }
        ensures few { result < 2 ^ 63 }
    {
        self.heap.len() as u64
    }

    /// The class of an object.
    #[tactic(auto, using(crate::proofs::Heaps::object_there, crate::proofs::Heaps::object_missing), unfolding(crate::specs::Views::state_of))]
    pub fn class_of(&self, object: u64) -> ClassId
        ensures { result.0 ≡ (object_at (state_of self.now) object).class }
    {
        match self.heap.get(object as usize) {
            Some(object) => object.class,
            None => ClassId(0),
        }
    }

    /// The length of an array.
    #[tactic(auto, using(crate::proofs::Heaps::object_there, crate::proofs::Heaps::object_missing), unfolding(crate::specs::Views::state_of))]
    pub fn size_of(&self, object: u64) -> usize
        ensures { result ≡ (object_at (state_of self.now) object).size }
    {
        match self.heap.get(object as usize) {
            Some(object) => object.size,
            None => 0,
        }
    }

    /// The cells of an object, if all of them hold values. The text of an object is read by `text` alone; as a cell it is refused as
    /// want of memory.
    #[tactic(auto, using(crate::proofs::Heaps::object_there, crate::proofs::Heaps::object_missing), unfolding(crate::specs::Views::state_of))]
    pub fn cells(&self, object: u64) -> Result<&[Value], AllocError>
        ensures { IfOk result (λ cells. values_of cells.now ≡ (object_at (state_of self.now) object).cells) }
    {
        match self.heap.get(object as usize) {
            Some(object) => object.cells(),
            None => Ok(&[]),
        }
    }

    /// The value of a cell of an object all of whose cells hold values.
    #[tactic(auto, using(crate::proofs::Heaps::value_there))]
    pub fn cell(&self, object: u64, place: usize) -> Result<Value, AllocError>
        ensures { IfOk result (λ value. value_of value ≡ cell_at (state_of self.now) object place) }
    {
        let cells = self.cells(object)?;
        Ok(cells.get(place).copied().unwrap_or(Value::Top))
    }

    /// The text of a String or StringBuilder; of any other object the empty one.
    #[tactic(auto, using(crate::proofs::Heaps::object_there, crate::proofs::Heaps::object_missing), unfolding(crate::specs::Views::state_of))]
    pub fn text(&self, object: u64) -> &[u16]
        ensures { result.now ≡ units_in (cell_at (state_of self.now) object 0) }
    {
        match self.heap.get(object as usize) {
            Some(object) => object.text(),
            None => &[],
        }
    }

    /// The number in a cell; 0 where it holds none.
    #[tactic(auto, using(crate::proofs::Heaps::object_there, crate::proofs::Heaps::object_missing), unfolding(crate::specs::Views::state_of))]
    pub fn number(&self, object: u64, place: usize) -> i32
        ensures { result ≡ number_in (cell_at (state_of self.now) object place) }
    {
        match self.heap.get(object as usize) {
            Some(object) => object.number(place),
            None => 0,
        }
    }

    /// A second object like one of the heap; where it isn't there, one without cells.
    #[tactic(auto, using(crate::proofs::Heaps::object_there, crate::proofs::Heaps::object_missing), unfolding(crate::specs::Views::state_of))]
    pub fn copied(&self, alloc: Global, object: u64) -> Result<Object, AllocError>
        ensures { IfOk result (λ copy. object_of copy ≡ object_at (state_of self.now) object) }
    {
        match self.heap.get(object as usize) {
            Some(object) => object.copied(alloc),
            None => Ok(Object::of_cells(ClassId(0), Vec::new(alloc))),
        }
    }

    /// Writes a cell; one that isn't there stays. A value in place of a text takes memory; want of it leaves the state as it was.
    #[tactic(auto, using(crate::proofs::Heaps::object_absent), unfolding(crate::specs::Views::state_of))]
    pub fn write_cell(&mut self, object: u64, place: usize, value: Value) -> Result<(), AllocError>
        ensures ok { OnOk result (state_of self.new ≡ with_cell (state_of self.old) object place (value_of value)) }
        ensures err { OnErr result (state_of self.new ≡ state_of self.old) }
    {
        let number = object as usize;
        if number < self.heap.len() {
            self.heap[number].write(place, value)
        } else {
            Ok(())
        }
    }

    /// Writes a text to the first cell of an object, if there is one.
    #[tactic(auto, using(crate::proofs::Heaps::object_absent), unfolding(crate::specs::Views::state_of))]
    pub fn write_text(&mut self, object: u64, units: Vec<u16>)
        ensures { state_of self.new ≡ with_cell (state_of self.old) object 0 (Text units.items) }
    {
        let number = object as usize;
        if number >= self.heap.len() {
            return;
        }
        self.heap[number].write_text(units);
    }

    /// Puts an object at the end of the heap, and gives its place. After want of memory the state is as it was.
    #[tactic(auto, using(crate::proofs::Heaps::object_added), unfolding(crate::specs::Views::state_of))]
    pub fn add(&mut self, object: Object) -> Result<u64, AllocError>
        ensures place { IfOk result (λ place. place ≡ length (state_of self.old).heap) }
        ensures added { OnOk result (state_of self.new ≡ with_objects (state_of self.old) (object_of object ∷ [])) }
        ensures err { OnErr result (state_of self.new ≡ state_of self.old) }
    {
        let place = self.heap.len() as u64;
        self.heap.push(object)?;
        Ok(place)
    }

    // ---- static fields and initialisation

    /// The value of a static field.
    #[tactic(auto, using(crate::proofs::Heaps::value_there), unfolding(crate::specs::Views::state_of))]
    pub fn static_value(&self, field: FieldId) -> Value
        ensures { value_of result ≡ item_or (state_of self.now).statics field.0 Top }
    {
        self.statics
            .get(field.0 as usize)
            .copied()
            .unwrap_or(Value::Top)
    }

    /// Writes a static field.
    #[tactic(auto, using(crate::proofs::Heaps::value_set), unfolding(crate::specs::Views::state_of))]
    pub fn write_static(&mut self, field: FieldId, value: Value)
        ensures { state_of self.new ≡ with_static (state_of self.old) field.0 (value_of value) }
    {
        let place = field.0 as usize;
        if place < self.statics.len() {
            self.statics[place] = value;
        }
    }

    /// How far the initialisation of a class has come.
    #[tactic(auto, unfolding(crate::specs::Views::state_of))]
    pub fn init_of(&self, class: ClassId) -> InitState
        ensures { result ≡ init_at (state_of self.now).inits class.0 }
    {
        self.inits
            .get(class.0 as usize)
            .copied()
            .unwrap_or(InitState::Done)
    }

    /// Whether marking the chain of a class has no other effect.
    #[tactic(auto, unfolding(crate::specs::Views::state_of))]
    pub fn is_quiet(&self, program: &Program, class: ClassId) -> bool
        ensures { result ≡ quiet_chain program.now (state_of self.now).inits class.0 }
    {
        quiet_chain(program, class, self.inits.as_slice())
    }

    /// Sets how far the initialisation of a class has come.
    #[tactic(auto, unfolding(crate::specs::Views::state_of))]
    pub fn mark_one(&mut self, class: ClassId, state: InitState)
        ensures { state_of self.new ≡ with_inits (state_of self.old) state (class.0 ∷ []) }
    {
        let place = class.0 as usize;
        if place < self.inits.len() {
            self.inits[place] = state;
        }
    }

    /// Sets how far the initialisation of classes has come.
    #[tactic(auto, using(crate::proofs::Heaps::marked))]
    pub fn mark(&mut self, classes: &[ClassId], state: InitState)
        ensures { state_of self.new ≡ with_inits (state_of self.old) state (map (λ class. class.0) classes.now) }
    {
        for class in classes {
            self.mark_one(*class, state);
        }
    }

    // ---- the frame on top

    /// The kind of the frame on top.
    #[tactic(auto, unfolding(crate::specs::Views::state_of))]
    pub fn kind(&self) -> Kind
        ensures { result ≡ (state_of self.now).top.kind }
    {
        self.top.kind
    }

    /// The class whose method stands on top.
    #[tactic(auto, unfolding(crate::specs::Views::state_of))]
    pub fn current_class(&self, program: &Program) -> ClassId
        ensures { result.0 ≡ current_class program.now (state_of self.now) }
    {
        class_of_method(program, self.top.method)
    }

    /// The value of a local variable.
    #[tactic(auto, using(crate::proofs::Heaps::value_there), unfolding(crate::specs::Views::state_of))]
    pub fn local(&self, place: u16) -> Value
        ensures { value_of result ≡ item_or (state_of self.now).top.locals place Top }
    {
        self.top
            .locals
            .get(place as usize)
            .copied()
            .unwrap_or(Value::Top)
    }

    /// Writes a local variable; one that isn't there stays.
    #[tactic(auto, unfolding(crate::specs::Views::state_of))]
    pub fn set_local(&mut self, place: usize, value: Value)
        ensures { state_of self.new ≡ with_locals (state_of self.old) (slice_set (state_of self.old).top.locals place (value_of value)) }
    {
        self.top.set_local(place, value);
    }

    /// The operand that stands so many below the one on top.
    #[tactic(auto, unfolding(crate::specs::Views::state_of))]
    pub fn operand(&self, below: usize) -> Option<Value>
        ensures { option_map value_of result ≡ slice_get (state_of self.now).top.operands below }
    {
        self.top.operand(below)
    }

    /// How many words the operands take, where so many on top are left out.
    #[tactic(auto, unfolding(crate::specs::Views::state_of))]
    pub fn words_under(&self, above: usize) -> usize
        ensures { result ≡ stack_size (drop above (state_of self.now).top.operands) }
    {
        self.top.words_under(above)
    }

    /// Goes to a position, with so many operands taken off.
    #[tactic(auto, unfolding(crate::specs::Views::state_of))]
    pub fn go_to(&mut self, position: u32, taken: usize)
        ensures { state_of self.new ≡ at_position (state_of self.old) position (drop taken (state_of self.old).top.operands) }
    {
        self.top.drop_operands(taken);
        self.top.position = position;
    }

    /// Where the frame on top stands.
    #[tactic(auto, unfolding(crate::specs::Views::state_of))]
    pub fn position(&self) -> u32
        ensures { result ≡ (state_of self.now).top.position }
    {
        self.top.position
    }

    /// The position so many bytes on, if it fits.
    fn position_behind(&self, size: u32) -> Option<u32>
        ensures { IfSome result (λ position. position ≡ (state_of self.now).top.position + size) }
    {
        self.position().checked_add(size)
    }

    /// Moves so many bytes on, with so many operands taken off. A position from 2^32 on is not held, and the state stays.
    pub fn pass(&mut self, size: u32, taken: usize) -> Result<(), AllocError>
        ensures ok { OnOk result (state_of self.new ≡ at_position (state_of self.old) ((state_of self.old).top.position + size) (drop taken (state_of self.old).top.operands)) }
        ensures err { OnErr result (state_of self.new ≡ state_of self.old) }
    {
        let position = held(self.position_behind(size))?;
        self.go_to(position, taken);
        Ok(())
    }

    /// Puts a value on top of the operands. Want of memory leaves the state as it was.
    #[tactic(auto, unfolding(crate::specs::Views::state_of))]
    pub fn push(&mut self, value: Value) -> Result<(), AllocError>
        ensures ok { OnOk result (state_of self.new ≡ at_position (state_of self.old) (state_of self.old).top.position (value_of value ∷ (state_of self.old).top.operands)) }
        ensures err { OnErr result (state_of self.new ≡ state_of self.old) }
    {
        self.top.push(value)
    }

    // ---- frames

    /// A frame is put on top. Want of memory leaves the state as it was.
    #[tactic(auto, using(crate::proofs::Heaps::frame_added), unfolding(crate::specs::Views::state_of))]
    pub fn enter(&mut self, frame: Frame) -> Result<(), AllocError>
        ensures ok { OnOk result (state_of self.new ≡ with_frame (state_of self.old) (frame_of frame)) }
        ensures err { OnErr result (state_of self.new ≡ state_of self.old) }
    {
        self.callers.reserve(1)?;
        let caller = std::mem::replace(&mut self.top, frame);
        self.callers.push(caller)?;
        Ok(())
    }

    /// The frame on top is taken off, and its caller stands on top; `None` where it has no caller, and the state stays.
    #[tactic(auto, using(crate::proofs::Heaps::frame_added, crate::proofs::Heaps::no_frame), unfolding(crate::specs::Views::state_of))]
    pub fn leave(&mut self) -> Option<Frame>
        ensures { MatchOption result (HasNoCaller (state_of self.old) (state_of self.new)) (λ frame. state_of self.old ≡ with_frame (state_of self.new) (frame_of frame)) }
    {
        match self.callers.pop() {
            Some(caller) => Some(std::mem::replace(&mut self.top, caller)),
            None => None,
        }
    }
}
