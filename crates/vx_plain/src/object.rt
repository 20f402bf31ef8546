//! Objects (JVMS 2.7).

ghost use Rattle.std.specs.Prelude.{◌≡◌, ◌∷◌, [], IfOk, IfSome, OnErr, OnOk, length, slice_set};
ghost use Rattle.vx_java.specs.Library.{number_in};
ghost use Rattle.vx_java.specs.Machine.{Text as TextValue, Top};
ghost use Rattle.vx_java.specs.Texts.{units_in};
ghost use Rattle.vx_list.specs.Places.{item_or};
ghost use Rattle.vx_plain.specs.Views.{cells_of, object_of, units_of, value_of, values_of};

use crate::limits::held;
use crate::value::Value;
use std::alloc::{AllocError, Global};
use vx_value::ClassId;

/// What an object holds: a cell for each index of an array, or for each instance field of its class and superclasses. Of a String or
/// StringBuilder the first cell holds a text, which is no value; the cells behind it hold values.
#[derive(Drop)]
pub struct Body {
    pub text: Option<Vec<u16>>,
    pub values: Vec<Value>,
}

/// Writes one of some values; one that isn't there stays.
#[tactic(auto, using(crate::proofs::Heaps::value_set))]
fn set(values: &mut Vec<Value>, place: usize, value: Value)
    ensures { values_of values.new.items ≡ slice_set (values_of values.old.items) place (value_of value) }
{
    if place < values.len() {
        values[place] = value;
    }
}

/// The number at a place of some values; 0 where there is none.
#[tactic(auto, using(crate::proofs::Heaps::value_there))]
fn number_in(values: &[Value], place: usize) -> i32
    ensures { result ≡ number_in (item_or (values_of values.now) place Top) }
{
    values.get(place).copied().unwrap_or(Value::Top).number()
}

/// A second text like it.
fn text_copied(alloc: Global, text: &Option<Vec<u16>>) -> Result<Option<Vec<u16>>, AllocError>
    ensures { IfOk result (λ copied. units_of copied ≡ units_of text.now) }
{
    match text {
        Some(units) => Ok(Some(Vec::from_slice(alloc, units)?)),
        None => Ok(None),
    }
}

impl Body {
    /// Cells without a text.
    pub fn of_cells(values: Vec<Value>) -> Body
        ensures { cells_of result ≡ values_of values.items }
    {
        Body { text: None, values }
    }

    /// One cell, with a text.
    pub fn of_text(units: Vec<u16>) -> Body
        ensures { cells_of result ≡ TextValue units.items ∷ [] }
    {
        let values = Vec::new(*units.allocator());
        Body {
            text: Some(units),
            values,
        }
    }

    /// A second body like it.
    fn copied(&self, alloc: Global) -> Result<Body, AllocError>
        ensures { IfOk result (λ body. cells_of body ≡ cells_of self.now) }
    {
        let text = text_copied(alloc, &self.text)?;
        let values = Vec::from_slice(alloc, &self.values)?;
        Ok(Body { text, values })
    }

    /// The cells, if all of them hold values: a text is no cell that an instruction reads.
    fn cells(&self) -> Option<&[Value]>
        ensures { IfSome result (λ cells. values_of cells.now ≡ cells_of self.now) }
    {
        match self.text {
            Some(_) => None,
            None => Some(self.values.as_slice()),
        }
    }

    /// The text; where there is none, the empty one.
    #[tactic(auto, using(crate::proofs::Heaps::no_units))]
    fn text(&self) -> &[u16]
        ensures { result.now ≡ units_in (item_or (cells_of self.now) 0 Top) }
    {
        match &self.text {
            Some(units) => units.as_slice(),
            None => &[],
        }
    }

    /// The number in a cell; 0 where it holds none.
    #[tactic(auto, using(crate::proofs::Heaps::behind_first))]
    fn number(&self, place: usize) -> i32
        ensures { result ≡ number_in (item_or (cells_of self.now) place Top) }
    {
        match self.text {
            None => number_in(&self.values, place),
            Some(_) if place > 0 => number_in(&self.values, place - 1),
            Some(_) => 0,
        }
    }

    /// Writes a cell; one that isn't there stays. A value in place of the text takes memory; want of it leaves the cells as they were.
    #[tactic(auto, using(crate::proofs::Heaps::set_behind))]
    fn write(&mut self, place: usize, value: Value) -> Result<(), AllocError>
        ensures ok { OnOk result (cells_of self.new ≡ slice_set (cells_of self.old) place (value_of value)) }
        ensures err { OnErr result (cells_of self.new ≡ cells_of self.old) }
    {
        match self.text {
            None => {
                set(&mut self.values, place, value);
                Ok(())
            }
            Some(_) if place > 0 => {
                set(&mut self.values, place - 1, value);
                Ok(())
            }
            Some(_) => {
                self.values.insert(0, value)?;
                self.text = None;
                Ok(())
            }
        }
    }

    /// Writes a text to the first cell; where there is none, the cells stay.
    #[tactic(auto, using(crate::proofs::Heaps::first_set))]
    fn write_text(&mut self, units: Vec<u16>)
        ensures { cells_of self.new ≡ slice_set (cells_of self.old) 0 (TextValue units.items) }
    {
        match self.text {
            Some(_) => self.text = Some(units),
            None if self.values.is_empty() => {}
            None => {
                self.values.remove(0);
                self.text = Some(units);
            }
        }
    }
}

/// An object. The size is the length of an array, and 0 for any other object.
#[derive(Drop)]
pub struct Object {
    pub class: ClassId,
    pub size: usize,
    pub body: Body,
}

impl Object {
    /// An object that is no array.
    pub fn of_cells(class: ClassId, cells: Vec<Value>) -> Object
        ensures { object_of result ≡ record { class = class.0; size = 0; cells = values_of cells.items } }
    {
        Object {
            class,
            size: 0,
            body: Body::of_cells(cells),
        }
    }

    /// An object of a text.
    pub fn of_text(class: ClassId, units: Vec<u16>) -> Object
        ensures { object_of result ≡ record { class = class.0; size = 0; cells = TextValue units.items ∷ [] } }
    {
        Object {
            class,
            size: 0,
            body: Body::of_text(units),
        }
    }

    /// An array.
    pub fn array(class: ClassId, cells: Vec<Value>) -> Object
        ensures { object_of result ≡ record { class = class.0; size = length cells.items; cells = values_of cells.items } }
    {
        let size = cells.len();
        Object {
            class,
            size,
            body: Body::of_cells(cells),
        }
    }

    /// A second object like it.
    pub fn copied(&self, alloc: Global) -> Result<Object, AllocError>
        ensures { IfOk result (λ object. object_of object ≡ object_of self.now) }
    {
        let body = self.body.copied(alloc)?;
        Ok(Object {
            class: self.class,
            size: self.size,
            body,
        })
    }

    /// The cells. Those of an object with a text are refused as want of memory: no instruction reads them.
    pub fn cells(&self) -> Result<&[Value], AllocError>
        ensures { IfOk result (λ cells. values_of cells.now ≡ (object_of self.now).cells) }
    {
        held(self.body.cells())
    }

    /// The text of a String or StringBuilder; of any other object the empty one.
    pub fn text(&self) -> &[u16]
        ensures { result.now ≡ units_in (item_or (object_of self.now).cells 0 Top) }
    {
        self.body.text()
    }

    /// The number in a cell; 0 where it holds none.
    pub fn number(&self, place: usize) -> i32
        ensures { result ≡ number_in (item_or (object_of self.now).cells place Top) }
    {
        self.body.number(place)
    }

    /// Writes a cell; one that isn't there stays. A value in place of a text takes memory; want of it leaves the object as it was.
    pub fn write(&mut self, place: usize, value: Value) -> Result<(), AllocError>
        ensures ok { OnOk result (object_of self.new ≡ record (object_of self.old) { cells = slice_set (object_of self.old).cells place (value_of value) }) }
        ensures err { OnErr result (object_of self.new ≡ object_of self.old) }
    {
        self.body.write(place, value)
    }

    /// Writes a text to the first cell, if there is one.
    pub fn write_text(&mut self, units: Vec<u16>)
        ensures { object_of self.new ≡ record (object_of self.old) { cells = slice_set (object_of self.old).cells 0 (TextValue units.items) } }
    {
        self.body.write_text(units);
    }
}
