//! The classes of a program, each found by the hash of its name.

ghost use Rattle.std.specs.Prelude.{◌≡◌, ◌++◌, ◌<◌, ◌∷◌, [], All, IfOk, IfSome, OnOk, bytes_eq, if◌then◌else◌, length, map, option_copied, position, slice_get};
ghost use Rattle.vx_link.specs.ClassPlaces.{ArePlaces};
ghost use Rattle.vx_link.specs.Members.{HaveRuns, numbers_of};
ghost use Rattle.vx_link.specs.Parts.{no_class};
ghost use Rattle.vx_list.specs.Places.{item_or};
ghost use Rattle.vx_names.specs.Names.{has_name, with_name};

use crate::program::LinkedClass;
use std::alloc::{AllocError, Global};
use std::marker::Model;
use vx_list::Items;
use vx_names::NameTable;
use vx_value::{FieldId, MethodId};

/// The names of classes, each once, and for each name the place of its first class.
#[derive(Drop)]
struct ClassPlaces {
    names: NameTable,
    places: Vec<usize>,
}

/// Puts a class behind the others, unless one of its name is there.
fn add(
    alloc: Global,
    known: &mut ClassPlaces,
    place: usize,
    class: &LinkedClass,
) -> Result<(), AllocError>
    ensures names { OnOk result (known.new.names ≡ with_name known.old.names class.now.name) }
    ensures places { OnOk result (known.new.places.items ≡ if has_name known.old.names class.now.name then known.old.places.items else known.old.places.items ++ place ∷ []) }
{
    if known
        .names
        .add(Vec::from_slice(alloc, class.name.bytes())?)?
    {
        known.places.push(place)?;
    }
    Ok(())
}

fn fill(alloc: Global, known: &mut ClassPlaces, classes: &[LinkedClass]) -> Result<(), AllocError>
    requires { ArePlaces [] known.old.names known.old.places.items }
    ensures { OnOk result (ArePlaces classes.now known.new.names known.new.places.items) }
{
    for place in 0..classes.len() {
        add(alloc, known, place, &classes[place])?;
    }
    Ok(())
}

/// The places of these classes.
fn places_of(alloc: Global, classes: &[LinkedClass]) -> Result<ClassPlaces, AllocError>
    ensures { IfOk result (λ known. ArePlaces classes.now known.names known.places.items) }
{
    let mut known = ClassPlaces {
        names: NameTable::new(alloc),
        places: Vec::new(alloc),
    };
    fill(alloc, &mut known, classes)?;
    Ok(known)
}

/// Numbers that follow one another: the first one, or 0 where there is none, and how many there are.
#[derive(Clone, Copy)]
pub struct Run {
    pub first: u32,
    pub count: usize,
}

fn first_method(methods: &[MethodId]) -> u32
    ensures { result ≡ item_or (map (λ m. m.0) methods.now) 0 0 }
{
    match methods.first() {
        Some(method) => method.0,
        None => 0,
    }
}

fn first_field(fields: &[FieldId]) -> u32
    ensures { result ≡ item_or (map (λ f. f.0) fields.now) 0 0 }
{
    match fields.first() {
        Some(field) => field.0,
        None => 0,
    }
}

/// The classes of a program in order, with a table in which the place of a class is found by its name. Contracts see the list of them.
#[derive(Drop)]
pub struct ClassList {
    classes: Items<LinkedClass>,
    known: ClassPlaces,
}

impl Model for ClassList {
    ghost use Rattle.std.specs.Prelude.{All, List};
    ghost use Rattle.vx_link.specs.ClassPlaces.{ArePlaces};
    ghost use Rattle.vx_link.specs.Members.{HaveRuns};
    ghost use Rattle.vx_link.specs.declared.program.LinkedClass.{LinkedClass};

    ghost Value = { List LinkedClass };

    ghost view = { λ list. list.classes };

    ghost invariant = { λ list. ArePlaces list.classes list.known.names list.known.places.items × All HaveRuns list.classes };
}

impl ClassList {
    /// A list of these classes.
    pub fn of(alloc: Global, classes: Items<LinkedClass>) -> Result<ClassList, AllocError>
        requires { All HaveRuns classes }
        ensures { IfOk result (λ list. list ≡ classes) }
    {
        let known = places_of(alloc, classes.as_slice())?;
        Ok(ClassList { classes, known })
    }

    /// How many classes there are.
    pub fn len(&self) -> usize
        ensures { result ≡ length self.now }
    {
        self.classes.len()
    }

    /// The class at a place, or `None` past the last one.
    pub fn get(&self, place: usize) -> Option<&LinkedClass>
        ensures { option_copied result ≡ slice_get self.now place }
    {
        self.classes.get(place)
    }

    /// The classes as a slice.
    pub fn as_slice(&self) -> &[LinkedClass]
        ensures { result.now ≡ self.now }
    {
        self.classes.as_slice()
    }

    /// The numbers of the methods of the class at a place, and none past the last class.
    pub fn methods_of(&self, place: usize) -> Run
        ensures { map (λ m. m.0) (item_or self.now place no_class).methods ≡ numbers_of result }
    {
        match self.classes.get(place) {
            Some(class) => Run {
                first: first_method(class.methods.as_slice()),
                count: class.methods.len(),
            },
            None => Run { first: 0, count: 0 },
        }
    }

    /// The numbers of the fields of the class at a place, and none past the last class.
    pub fn fields_of(&self, place: usize) -> Run
        ensures { map (λ f. f.0) (item_or self.now place no_class).fields ≡ numbers_of result }
    {
        match self.classes.get(place) {
            Some(class) => Run {
                first: first_field(class.fields.as_slice()),
                count: class.fields.len(),
            },
            None => Run { first: 0, count: 0 },
        }
    }

    /// The place of the first class that has a name, if there is one. It is found by the hash of the name.
    pub fn place_of(&self, name: &[u8]) -> Option<usize>
        ensures value { result ≡ position (λ c. bytes_eq c.name name.now) self.now }
        ensures within { IfSome result (λ place. place < length self.now) }
    {
        match self.known.names.place_of(name) {
            Some(place) => Some(self.known.places[place]),
            None => None,
        }
    }
}
