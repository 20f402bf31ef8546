//! A pool whose texts are judged, each once, however many entries and instructions name it.

ghost use Rattle.std.specs.Prelude.{◌≡◌, ◌<◌, ◌^◌, length, Some, IfOk};
ghost use Rattle.vx_desc.specs.Names.{is_field_name, is_method_name};
ghost use Rattle.vx_desc.specs.Descriptors.{is_field_descriptor, is_method_descriptor, method_slots};
ghost use Rattle.vx_pool.specs.Lookups.{text, is_class_text};
ghost use Rattle.vx_pool.specs.Entries.{where_read};
ghost use Rattle.vx_pool.specs.Verdicts.{slots_read, verdict_of, entry_verdict, verdicts_of};

use crate::lookups::is_class_text;
use crate::{Entry, Pool};
use std::alloc::{AllocError, Global};
use std::marker::Model;
use vx_desc::{is_field_descriptor, is_field_name, is_method_name, method_slots};
use vx_list::Items;

/// What a text may be: the text of a class, a name, a descriptor. `slots` are the argument slots of a method's descriptor.
#[derive(Clone, Copy)]
pub struct Verdict {
    pub class_text: bool,
    pub field_name: bool,
    pub method_name: bool,
    pub field_descriptor: bool,
    pub slots: Option<u8>,
}

/// An entry that is no text is refused for that alone, and passes each test of its text.
const NO_TEXT: Verdict = Verdict {
    class_text: true,
    field_name: true,
    method_name: true,
    field_descriptor: true,
    slots: Some(0),
};

/// The argument slots of a method, which are at most 255.
fn small_slots(alloc: Global, text: &[u8]) -> Result<Option<u8>, AllocError>
    requires { length text.now < 2 ^ 32 }
    ensures { IfOk result (λ slots. slots ≡ method_slots text.now) }
{
    match method_slots(alloc, text)? {
        Some(slots) => Ok(Some(slots as u8)),
        None => Ok(None),
    }
}

fn text_verdict(alloc: Global, text: &[u8]) -> Result<Verdict, AllocError>
    requires { length text.now < 2 ^ 16 }
    ensures { IfOk result (λ verdict. verdict ≡ verdict_of (Some text.now)) }
{
    let slots = small_slots(alloc, text)?;
    Ok(Verdict {
        class_text: is_class_text(text),
        field_name: is_field_name(text),
        method_name: is_method_name(text),
        field_descriptor: is_field_descriptor(text),
        slots,
    })
}

fn entry_verdict(alloc: Global, entry: &Entry) -> Result<Verdict, AllocError>
    ensures { IfOk result (λ verdict. verdict ≡ entry_verdict entry.now) }
{
    match entry {
        Entry::Utf8(text) => text_verdict(alloc, text.as_slice()),
        _ => Ok(NO_TEXT),
    }
}

fn verdicts_of(alloc: Global, pool: &Pool) -> Result<Items<Verdict>, AllocError>
    ensures { IfOk result (λ verdicts. verdicts ≡ verdicts_of pool.now) }
{
    let mut verdicts = Vec::new(alloc);
    for entry in pool.entries.as_slice() {
        verdicts.push(entry_verdict(alloc, entry)?)?;
    }
    Ok(Items::of(verdicts))
}

/// A pool, and the verdicts on its texts by their indices. Contracts see the pool.
#[derive(Drop)]
pub struct JudgedPool<'p> {
    pool: &'p Pool,
    verdicts: Items<Verdict>,
}

impl<'p> Model for JudgedPool<'p> {
    ghost use Rattle.std.specs.Prelude.{◌≡◌};
    ghost use Rattle.vx_pool.specs.declared.pool.Pool.{Pool};

    ghost Value = { Pool };

    ghost use Rattle.vx_pool.specs.Verdicts.{verdicts_of};

    ghost view = { λ judged. judged.pool.now };

    ghost invariant = { λ judged. judged.verdicts ≡ verdicts_of judged.pool.now };
}

impl<'p> JudgedPool<'p> {
    /// Judges each text of a pool.
    pub fn of(alloc: Global, pool: &'p Pool) -> Result<JudgedPool<'p>, AllocError>
        ensures { IfOk result (λ judged. judged ≡ pool.now) }
    {
        let verdicts = verdicts_of(alloc, pool)?;
        Ok(JudgedPool { pool, verdicts })
    }

    /// The pool.
    pub fn pool(&self) -> &'p Pool
        ensures { result.now ≡ self.now }
    {
        self.pool
    }

    fn verdict(&self, index: u16) -> Verdict
        ensures { result ≡ verdict_of (text self.now index) }
    {
        match self.verdicts.get(index as usize) {
            Some(verdict) => *verdict,
            None => NO_TEXT,
        }
    }

    /// Whether the text of an index, if it is one, may be that of a class entry.
    pub fn is_class_text(&self, index: u16) -> bool
        ensures { result ≡ where_read is_class_text (text self.now index) }
    {
        self.verdict(index).class_text
    }

    /// Whether the text of an index, if it is one, is the name of a field.
    pub fn is_field_name(&self, index: u16) -> bool
        ensures { result ≡ where_read is_field_name (text self.now index) }
    {
        self.verdict(index).field_name
    }

    /// Whether the text of an index, if it is one, is the name of a method.
    pub fn is_method_name(&self, index: u16) -> bool
        ensures { result ≡ where_read is_method_name (text self.now index) }
    {
        self.verdict(index).method_name
    }

    /// Whether the text of an index, if it is one, is the descriptor of a field.
    pub fn is_field_descriptor(&self, index: u16) -> bool
        ensures { result ≡ where_read is_field_descriptor (text self.now index) }
    {
        self.verdict(index).field_descriptor
    }

    /// Whether the text of an index, if it is one, is the descriptor of a method.
    pub fn is_method_descriptor(&self, index: u16) -> bool
        ensures { result ≡ where_read is_method_descriptor (text self.now index) }
    {
        self.verdict(index).slots.is_some()
    }

    /// The argument slots of the method whose descriptor is the text of an index.
    pub fn slots(&self, index: u16) -> Option<u8>
        ensures { result ≡ slots_read (text self.now index) }
    {
        self.verdict(index).slots
    }
}
