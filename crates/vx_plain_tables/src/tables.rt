//! Tables over a program that are filled once.

ghost use Rattle.std.specs.Prelude.{◌≡◌, [], IfOk, map, slice_get};
ghost use Rattle.vx_java.specs.FirstObjects.{literal_object};
ghost use Rattle.vx_java.specs.Ids.{HasClassNumbers};
ghost use Rattle.vx_list.specs.Places.{item_or};
ghost use Rattle.vx_plain_tables.specs.Tables.{AreTables, IsShort};

use std::alloc::{AllocError, Global};
use vx_link::Program;
use vx_list::Items;
use vx_references::class_table;
use vx_value::ClassId;

/// By class and entry of its pool, the class that each entry names and the number of the object of each literal.
#[derive(Drop)]
pub struct Tables {
    classes: Vec<Items<Option<ClassId>>>,
    literals: Vec<Items<u64>>,
}

impl Tables {
    /// The tables of a program with the objects of its literals.
    pub fn of(
        alloc: Global,
        program: &Program,
        literals: Vec<Items<u64>>,
    ) -> Result<Tables, AllocError>
        requires classes { HasClassNumbers program.now }
        requires short { IsShort program.now }
        requires literals { literals.items ≡ map (λ c. map (literal_object program.now c.pool) c.pool.entries) program.now.classes }
        ensures { IfOk result (AreTables program.now) }
    {
        let classes = class_table(alloc, program)?;
        Ok(Tables { classes, literals })
    }

    /// What the table says of an entry.
    pub(crate) fn class_of(&self, class: ClassId, entry: u16) -> Option<Option<ClassId>>
        ensures { result ≡ slice_get (item_or self.now.classes.items class.0 []) entry }
    {
        match self.classes.get(class.0 as usize) {
            Some(row) => row.get(entry as usize).copied(),
            None => None,
        }
    }

    /// The number of the object of a literal.
    pub(crate) fn literal(&self, class: ClassId, entry: u16) -> u64
        ensures { result ≡ item_or (item_or self.now.literals.items class.0 []) entry 0 }
    {
        match self.literals.get(class.0 as usize) {
            Some(row) => row.get(entry as usize).copied().unwrap_or(0),
            None => 0,
        }
    }
}
