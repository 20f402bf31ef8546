//! What an instruction sees, with the tables of the program.

ghost use Rattle.std.specs.Prelude.{◌≡◌, ◌<◌, ◌^◌, [], IfOk, length, option_map, unwrap_or};
ghost use Rattle.vx_java.specs.Ids.{as_class};
ghost use Rattle.vx_link.specs.ClassNames.{class_named};
ghost use Rattle.vx_link.specs.Names.{class_name, member};
ghost use Rattle.vx_link.specs.Parts.{class_at, method_at};
ghost use Rattle.vx_link.specs.Signature.{signature};
ghost use Rattle.vx_pool.specs.Lookups.{entry_of, member_descriptor};
ghost use Rattle.vx_plain_tables.specs.Tables.{AreTables, literal_in};

use crate::tables::Tables;
use std::alloc::{AllocError, Global};
use vx_desc::Descriptor;
use vx_java::parts::descriptor_of_method;
use vx_java::{class_named, name_of_entry};
use vx_plain_here::Here;
use vx_pool::{Entry, Pool, entry_of, member_descriptor};
use vx_references::{owner_entry, signature};
use vx_value::{ClassId, MethodId};

/// A descriptor of the pool; it is empty where there is none.
fn descriptor_of(pool: &Pool, index: u16) -> &[u8]
    ensures text { result.now ≡ unwrap_or (member_descriptor pool.now index) [] }
    ensures few { length result.now < 2 ^ 16 }
{
    member_descriptor(pool, index).unwrap_or(&[])
}

/// The descriptor of the member that an entry names, whose length two bytes hold.
pub fn descriptor_in(pool: &Pool, entry: u16) -> &[u8]
    ensures text { result.now ≡ (member pool.now entry).descriptor }
    ensures few { length result.now < 2 ^ 16 }
{
    match entry_of(pool, entry) {
        Some(Entry::Field(_, descriptor) | Entry::Method(_, descriptor)) => {
            descriptor_of(pool, *descriptor)
        }
        Some(Entry::InterfaceMethod(_, descriptor)) => descriptor_of(pool, *descriptor),
        _ => descriptor_of(pool, 0),
    }
}

/// What the descriptor of the member says that an entry names.
pub fn signature_in(alloc: Global, pool: &Pool, entry: u16) -> Result<Descriptor, AllocError>
    ensures { IfOk result (λ d. d ≡ signature (member pool.now entry).descriptor) }
{
    signature(alloc, descriptor_in(pool, entry))
}

/// What an instruction sees, the tables of the program, and the class whose pool it sees.
#[derive(Drop)]
pub struct Seen<'a> {
    pub here: Here<'a>,
    pub tables: &'a Tables,
    pub class: ClassId,
    pub ghost pool: { here.pool.now ≡ (class_at here.program.now class.0).pool },
    pub ghost known: { AreTables here.program.now tables.now },
}

impl<'a> Seen<'a> {
    /// The class that a Class entry of the pool names (JVMS 5.4.3.1).
    pub fn class_named(&self, entry: u16) -> Option<ClassId>
        ensures { result ≡ option_map as_class (class_named self.now.here.program.now (class_name self.now.here.pool.now entry)) }
    {
        match self.tables.class_of(self.class, entry) {
            Some(found) => found,
            None => class_named(
                self.here.program,
                name_of_entry(self.here.program, self.class, entry),
            ),
        }
    }

    /// The class that a member's entry of the pool names, in which the member is looked for (JVMS 5.4.3.2, 5.4.3.3).
    pub fn owner(&self, entry: u16) -> Option<ClassId>
        ensures { result ≡ option_map as_class (class_named self.now.here.program.now (member self.now.here.pool.now entry).class) }
    {
        self.class_named(owner_entry(self.here.program, self.class, entry))
    }

    /// The object of a literal of the pool (JVMS 5.1).
    pub fn literal(&self, entry: u16) -> u64
        ensures { result ≡ literal_in self.now.here.program.now self.now.here.pool.now (entry_of self.now.here.pool.now entry) }
    {
        self.tables.literal(self.class, entry)
    }

    /// What the descriptor of a method says.
    pub fn signature(&self, method: MethodId) -> Result<Descriptor, AllocError>
        ensures { IfOk result (λ d. d ≡ signature (method_at self.now.here.program.now method.0).descriptor) }
    {
        signature(
            self.here.alloc,
            descriptor_of_method(self.here.program, method),
        )
    }
}
