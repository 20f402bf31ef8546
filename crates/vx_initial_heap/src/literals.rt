//! The literals of a program, each once, and the numbers of their objects (JVMS 5.1, 5.3).

ghost use Rattle.std.specs.Prelude.{◌≡◌, ◌+◌, [], length, map, fold, IfOk, OnOk};
ghost use Rattle.vx_initial_heap.specs.Literals.{first_of, IsListed, IsObject, number_among, object_among, with_class, with_entry, with_first, with_pool};
ghost use Rattle.vx_initial_heap.specs.Remembered.{IsRight};
ghost use Rattle.vx_java.specs.FirstObjects.{literal_object, literals};

use crate::literal::{Literal, literal_of};
use crate::remembered::Remembered;
use crate::text_keys::key_of;
use indexmap::IndexSet;
use std::alloc::{AllocError, Global};
use std::marker::Model;
use vx_link::{LinkedClass, Program};
use vx_list::{Items, Keyed};
use vx_pool::{Entry, Pool};

/// The number of the first literal's object: two streams, 256 Integers and two Booleans stand before it.
const FIRST_LITERAL: u64 = 260;

/// Literals in order, each once, found by their hashes. Contracts see the list of them.
#[derive(Drop)]
pub struct Literals {
    listed: IndexSet<Literal, Keyed>,
}

impl Model for Literals {
    ghost use Rattle.std.specs.Prelude.{List, map};
    ghost use Rattle.vx_java.specs.FirstObjects.{First};
    ghost use Rattle.vx_initial_heap.specs.Literals.{first_of};

    ghost Value = { List First };

    ghost view = { λ literals. map first_of literals.listed.keys };
}

impl Literals {
    fn new(alloc: Global, key: Keyed) -> Literals
        ensures { result ≡ [] }
    {
        Literals {
            listed: IndexSet::with_hasher(alloc, key),
        }
    }

    /// Puts a literal behind the others, unless it is there.
    fn add(&mut self, literal: Literal) -> Result<(), AllocError>
        ensures { OnOk result (self.new ≡ with_first self.old (first_of literal)) }
    {
        self.listed.insert(literal)?;
        Ok(())
    }

    fn add_entry(&mut self, alloc: Global, pool: &Pool, entry: &Entry) -> Result<(), AllocError>
        ensures { OnOk result (self.new ≡ with_entry pool.now self.old entry.now) }
    {
        match literal_of(alloc, pool, entry)? {
            Some(literal) => self.add(literal),
            None => Ok(()),
        }
    }

    /// Puts the literal of an entry behind the others, unless this remembers that it is there.
    fn add_new_entry(
        &mut self,
        alloc: Global,
        pool: &Pool,
        entry: &Entry,
        added: &mut Remembered,
    ) -> Result<(), AllocError>
        requires { IsRight (IsListed self.old pool.now) added.old }
        ensures listed { OnOk result (self.new ≡ with_entry pool.now self.old entry.now) }
        ensures added { OnOk result (IsRight (IsListed self.new pool.now) added.new) }
    {
        if added.number(entry) == 0 {
            self.add_entry(alloc, pool, entry)?;
            added.put(entry, 1);
        }
        Ok(())
    }

    /// Puts the literals of a pool behind the others, but for those that this remembers.
    fn add_new_entries(
        &mut self,
        alloc: Global,
        pool: &Pool,
        added: &mut Remembered,
    ) -> Result<(), AllocError>
        requires { IsRight (IsListed self.old pool.now) added.old }
        ensures { OnOk result (self.new ≡ with_pool self.old pool.now) }
    {
        for entry in pool.entries.as_slice() {
            self.add_new_entry(alloc, pool, entry, added)?;
        }
        Ok(())
    }

    fn add_pool(&mut self, alloc: Global, pool: &Pool) -> Result<(), AllocError>
        ensures { OnOk result (self.new ≡ with_pool self.old pool.now) }
    {
        let mut added = Remembered::new(alloc, pool)?;
        self.add_new_entries(alloc, pool, &mut added)
    }

    /// The number of a literal's object, or of the first one's where the literal isn't there.
    fn number_of(&self, literal: &Literal) -> u64
        ensures { result ≡ number_among self.now (first_of literal.now) }
    {
        let count = self.listed.len();
        let place = self.listed.get_index_of(literal).unwrap_or(0);
        prove!(place <= count);
        FIRST_LITERAL + place as u64
    }

    /// The number behind those of the literals' objects.
    pub fn number_behind(&self) -> u64
        ensures { result ≡ 260 + length self.now }
    {
        FIRST_LITERAL + self.listed.len() as u64
    }

    /// The literals in their order.
    pub fn as_slice(&self) -> &[Literal]
        ensures { map first_of result.now ≡ self.now }
    {
        self.listed.as_slice()
    }

    /// The number of the object of a pool entry. An entry that is no literal has that of the first one.
    fn object_of(&self, alloc: Global, pool: &Pool, entry: &Entry) -> Result<u64, AllocError>
        ensures { IfOk result (λ object. object ≡ object_among self.now pool.now entry.now) }
    {
        match literal_of(alloc, pool, entry)? {
            Some(literal) => Ok(self.number_of(&literal)),
            None => Ok(FIRST_LITERAL),
        }
    }
}

fn gathered(alloc: Global, classes: &[LinkedClass]) -> Result<Literals, AllocError>
    ensures { IfOk result (λ all. all ≡ fold with_class [] classes.now) }
{
    let mut literals = Literals::new(alloc, key_of(classes));
    for class in classes {
        literals.add_pool(alloc, &class.pool)?;
    }
    Ok(literals)
}

/// The string literals and the classes that the pools of a program name, each once, in the order of classes and entries.
pub fn literals_of(alloc: Global, program: &Program) -> Result<Literals, AllocError>
    ensures { IfOk result (λ all. all ≡ literals program.now) }
{
    let literals = gathered(alloc, program.classes.as_slice())?;
    Ok(literals)
}

/// The number of the object of a pool entry, which is found once for the entries of one kind that name the same text.
fn object_of_entry(
    alloc: Global,
    listed: &Literals,
    pool: &Pool,
    entry: &Entry,
    known: &mut Remembered,
) -> Result<u64, AllocError>
    requires { IsRight (IsObject listed.now pool.now) known.old }
    ensures object { IfOk result (λ object. object ≡ object_among listed.now pool.now entry.now) }
    ensures known { OnOk result (IsRight (IsObject listed.now pool.now) known.new) }
{
    let found = known.number(entry);
    if found != 0 {
        return Ok(found);
    }
    let object = listed.object_of(alloc, pool, entry)?;
    known.put(entry, object);
    Ok(object)
}

fn objects_of_entries(
    alloc: Global,
    listed: &Literals,
    pool: &Pool,
    known: &mut Remembered,
) -> Result<Items<u64>, AllocError>
    requires { IsRight (IsObject listed.now pool.now) known.old }
    ensures { IfOk result (λ objects. objects ≡ map (object_among listed.now pool.now) pool.now.entries) }
{
    let mut objects = Vec::new(alloc);
    for entry in pool.entries.as_slice() {
        objects.push(object_of_entry(alloc, listed, pool, entry, known)?)?;
    }
    Ok(Items::of(objects))
}

fn objects_of_pool(alloc: Global, listed: &Literals, pool: &Pool) -> Result<Items<u64>, AllocError>
    ensures { IfOk result (λ objects. objects ≡ map (object_among listed.now pool.now) pool.now.entries) }
{
    let mut known = Remembered::new(alloc, pool)?;
    let objects = objects_of_entries(alloc, listed, pool, &mut known)?;
    Ok(objects)
}

/// For each class and each entry of its pool the number of the literal's object.
pub fn literal_table(
    alloc: Global,
    program: &Program,
    listed: &Literals,
) -> Result<Vec<Items<u64>>, AllocError>
    requires { listed.now ≡ literals program.now }
    ensures { IfOk result (λ table. table.items ≡ map (λ c. map (literal_object program.now c.pool) c.pool.entries) program.now.classes) }
{
    let mut table = Vec::new(alloc);
    for class in program.classes.as_slice() {
        table.push(objects_of_pool(alloc, listed, &class.pool)?)?;
    }
    Ok(table)
}
