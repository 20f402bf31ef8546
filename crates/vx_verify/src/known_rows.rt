//! The rows of a method's instructions that name an entry of a pool, each made once, however often the method has the instruction.

ghost use Rattle.std.specs.Prelude.{◌≡◌, IfSome, OnErr, OnOk};
ghost use Rattle.vx_java.specs.Ids.{HasClassNumbers};
ghost use Rattle.vx_types.specs.Rows.{row_of};
ghost use Rattle.vx_verify.specs.KnownRows.{AreKnown, operation_of};

use indexmap::IndexMap;
use std::alloc::{AllocError, Global};
use vx_java::{Mode, Operation};
use vx_link::Program;
use vx_type_rows::row_of;
use vx_types::Row;
use vx_value::MethodId;

/// An operation that names an entry: its kind, and the index of the entry.
#[derive(Clone, Copy, PartialEq, Eq)]
struct Naming {
    kind: u8,
    entry: u16,
}

/// What an operation names, where its row is kept.
fn naming_of(operation: Operation) -> Option<Naming>
    ensures { IfSome result (λ naming. operation_of naming ≡ operation) }
{
    let (kind, entry) = match operation {
        Operation::GetStatic(entry) => (0, entry),
        Operation::PutStatic(entry) => (1, entry),
        Operation::GetField(entry) => (2, entry),
        Operation::PutField(entry) => (3, entry),
        Operation::Invoke(Mode::Virtual, entry) => (4, entry),
        Operation::Invoke(Mode::Special, entry) => (5, entry),
        Operation::Invoke(Mode::Static, entry) => (6, entry),
        Operation::Invoke(Mode::Interface, entry) => (7, entry),
        Operation::New(entry) => (8, entry),
        Operation::NewReferences(entry) => (9, entry),
        Operation::CheckCast(entry) => (10, entry),
        Operation::InstanceOf(entry) => (11, entry),
        _ => return None,
    };
    Some(Naming { kind, entry })
}

/// A row, and what its operation names.
#[derive(Drop)]
struct KnownRow {
    naming: Naming,
    row: Row,
}

/// The rows that were made so far.
#[derive(Drop)]
pub struct KnownRows {
    rows: Vec<KnownRow>,
    /// Under which number a row may be found. What is found there is looked at.
    numbers: IndexMap<(u8, u16), usize>,
}

impl KnownRows {
    /// No rows.
    pub fn new(alloc: Global, program: &Program, method: MethodId) -> KnownRows
        ensures { AreKnown program.now method.0 result.rows.items }
    {
        KnownRows {
            rows: Vec::new(alloc),
            numbers: IndexMap::new(alloc),
        }
    }

    /// The row of what an operation names, if it is known.
    fn find(&self, program: &Program, method: MethodId, naming: Naming) -> Option<&Row>
        requires { AreKnown program.now method.0 self.now.rows.items }
        ensures { IfSome result (λ row. row.now ≡ row_of program.now method.0 (operation_of naming)) }
    {
        let number = *self.numbers.get(&(naming.kind, naming.entry))?;
        let known = self.rows.get(number)?;
        if known.naming != naming {
            return None;
        }
        Some(&known.row)
    }

    /// The row of an operation, if it is known.
    pub fn get(&self, program: &Program, method: MethodId, operation: Operation) -> Option<&Row>
        requires { AreKnown program.now method.0 self.now.rows.items }
        ensures { IfSome result (λ row. row.now ≡ row_of program.now method.0 operation) }
    {
        let naming = naming_of(operation)?;
        self.find(program, method, naming)
    }

    /// Makes the row of what an operation names. Want of memory leaves the rows as they were.
    fn put(
        &mut self,
        alloc: Global,
        program: &Program,
        method: MethodId,
        operation: Operation,
        naming: Naming,
    ) -> Result<(), AllocError>
        requires classes { HasClassNumbers program.now }
        requires rows { AreKnown program.now method.0 self.old.rows.items }
        requires naming { operation_of naming ≡ operation }
        ensures ok { OnOk result (AreKnown program.now method.0 self.new.rows.items) }
        ensures err { OnErr result (self.new.rows.items ≡ self.old.rows.items) }
    {
        let row = row_of(alloc, program, method, operation)?;
        let number = self.rows.len();
        self.numbers.insert((naming.kind, naming.entry), number)?;
        self.rows.push(KnownRow { naming, row })?;
        Ok(())
    }

    /// Makes the row of an operation, where it is one that is kept and isn't known. Want of memory leaves the rows as they were.
    pub fn make(
        &mut self,
        alloc: Global,
        program: &Program,
        method: MethodId,
        operation: Operation,
    ) -> Result<(), AllocError>
        requires classes { HasClassNumbers program.now }
        requires rows { AreKnown program.now method.0 self.old.rows.items }
        ensures ok { OnOk result (AreKnown program.now method.0 self.new.rows.items) }
        ensures err { OnErr result (self.new.rows.items ≡ self.old.rows.items) }
    {
        let Some(naming) = naming_of(operation) else {
            return Ok(());
        };
        if self.find(program, method, naming).is_some() {
            return Ok(());
        }
        self.put(alloc, program, method, operation, naming)
    }
}
