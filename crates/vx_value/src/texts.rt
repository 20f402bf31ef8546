//! The texts of strings, each under one number.

ghost use Rattle.std.specs.Prelude.{◌≡◌, ◌<◌, ◌≤◌, ◌^◌, [], ◌∷◌, ◌++◌, None, Some, length, slice_get, IfOk, OnOk, OnErr, nat_eq};
ghost use Rattle.std.proofs.Props.{props};
ghost use Rattle.indexmap.specs.IndexMap.{get};
ghost use Rattle.vx_value.specs.Texts.{AreDistinct, AreShort, Extends, IsNumber, number_of, text_at, with_text};

use crate::buffers::{Buffers, Span};
use crate::trie::Trie;
use indexmap::IndexMap;
use std::alloc::{AllocError, Global};
use std::marker::Model;
use vx_list::Keyed;

/// Texts in order, found by the nodes of a trie at which they end. Contracts see the list of them, each as its UTF-16 code units.
#[derive(Drop)]
pub struct Texts {
    trie: Trie,
    buffers: Buffers,
    /// The node at which each text ends, and the span that holds it.
    listed: IndexMap<u64, Span>,
}

impl Model for Texts {
    ghost use Rattle.std.specs.Prelude.{ℕ, List};
    ghost use Rattle.vx_value.specs.Listed.{AreListed, listed_texts};
    ghost use Rattle.vx_value.specs.Trie.{paths};

    ghost Value = { List (List ℕ) };

    ghost view = { λ texts. listed_texts (paths texts.trie.steps.keys) texts.listed.entries };

    ghost invariant = { λ texts. AreListed (paths texts.trie.steps.keys) texts.buffers texts.listed.entries };
}

/// The entry of a known place.
fn entry_at(listed: &IndexMap<u64, Span>, place: usize) -> (u64, Span)
    requires { place < length listed.now.entries }
    ensures { slice_get listed.now.entries place ≡ Some result }
{
    match listed.get_index(place) {
        Some((end, span)) => (*end, *span),
        None => unreachable!(),
    }
}

/// Puts an entry behind the others, and tells its place.
fn list(listed: &mut IndexMap<u64, Span>, end: u64, span: Span) -> Result<u64, AllocError>
    requires { get nat_eq listed.old end ≡ None }
    ensures number { IfOk result (λ number. number ≡ length listed.old.entries) }
    ensures entries { OnOk result (listed.new.entries ≡ listed.old.entries ++ (end, span) ∷ []) }
    ensures err { OnErr result (listed.new.entries ≡ listed.old.entries) }
{
    let place = listed.len();
    listed.insert(end, span)?;
    Ok(place as u64)
}

impl Texts {
    fn new(alloc: Global, key: Keyed) -> Texts
        ensures { result ≡ [] }
    {
        Texts {
            trie: Trie::new(alloc, key),
            buffers: Buffers::new(alloc),
            listed: IndexMap::new(alloc),
        }
    }

    fn len(&self) -> usize
        ensures len { result ≡ length self.now }
        ensures small { result < 2 ^ 63 }
    {
        self.listed.len()
    }

    fn text(&self, place: usize) -> &[u16]
        requires { place < length self.now }
        ensures { result.now ≡ text_at self.now place }
    {
        let (_, span) = entry_at(&self.listed, place);
        self.buffers.text(span)
    }

    fn put(&mut self, units: &[u16]) -> Result<u64, AllocError>
        ensures number { IfOk result (λ number. number ≡ number_of self.old units.now) }
        ensures texts { OnOk result (self.new ≡ with_text self.old units.now) }
        ensures err { OnErr result (self.new ≡ self.old) }
    {
        let end = self.trie.walk(0, units)?;
        if let Some(place) = self.listed.get_index_of(&end) {
            return Ok(place as u64);
        }
        let span = self.buffers.put(units)?;
        list(&mut self.listed, end, span)
    }

    fn append(&mut self, place: usize, units: &[u16]) -> Result<u64, AllocError>
        requires { place < length self.old }
        ensures number { IfOk result (λ number. number ≡ number_of self.old (text_at self.old place ++ units.now)) }
        ensures texts { OnOk result (self.new ≡ with_text self.old (text_at self.old place ++ units.now)) }
        ensures err { OnErr result (self.new ≡ self.old) }
    {
        let (start, beginning) = entry_at(&self.listed, place);
        let end = self.trie.walk(start, units)?;
        if let Some(place) = self.listed.get_index_of(&end) {
            return Ok(place as u64);
        }
        let span = self.buffers.append(beginning, units)?;
        list(&mut self.listed, end, span)
    }
}

/// The most UTF-16 units of a text: so an int counts them.
const MOST_UNITS: usize = 2_147_483_647;

/// Refuses more units than there is room for.
fn within(count: usize, most: usize) -> Result<(), AllocError>
    ensures { OnOk result (count ≤ most) }
{
    if count > most {
        return Err(AllocError);
    }
    Ok(())
}

/// A table of texts, each there once: the number of a text is its place. So numbers are equal exactly where their texts are. No text has
/// more units than an int can count.
#[derive(Drop)]
pub struct TextTable {
    pub texts: Texts,
    pub ghost distinct: { AreDistinct texts } by { Prim.hlevel props },
    pub ghost short: { AreShort texts } by { Prim.hlevel props },
}

impl TextTable {
    /// No texts. Takes no memory. The hashes by which texts are found have a key that everybody knows.
    pub fn new(alloc: Global) -> TextTable
        ensures { result.texts ≡ [] }
    {
        TextTable::keyed(alloc, Keyed::by(&[]))
    }

    /// No texts. Takes no memory. The hashes by which texts are found begin with a key that is made of all from which texts may come.
    pub fn keyed(alloc: Global, key: Keyed) -> TextTable
        ensures { result.texts ≡ [] }
    {
        TextTable {
            texts: Texts::new(alloc, key),
        }
    }

    /// How many texts there are: the numbers below are known.
    pub fn len(&self) -> u64
        ensures len { result ≡ length self.now.texts }
        ensures small { result < 2 ^ 63 }
    {
        self.texts.len() as u64
    }

    /// The number of a text, which is put behind the others unless it is there already. Earlier numbers keep their texts. A
    /// known text takes no memory; for a text of 2^31 units or more there is none. After an error the texts are as they were.
    pub fn put(&mut self, units: &[u16]) -> Result<u64, AllocError>
        ensures number { IfOk result (λ number. number ≡ number_of self.old.texts units.now) }
        ensures texts { OnOk result (self.new.texts ≡ with_text self.old.texts units.now) }
        ensures text { IfOk result (λ number. IsNumber self.new.texts number units.now) }
        ensures extends { Extends self.old.texts self.new.texts }
        ensures err { OnErr result (self.new.texts ≡ self.old.texts) }
    {
        within(units.len(), MOST_UNITS)?;
        self.texts.put(units)
    }

    /// The number of the text that a known number has with units behind it, as by `put` of the whole text.
    pub fn append(&mut self, number: u64, units: &[u16]) -> Result<u64, AllocError>
        requires { number < length self.old.texts }
        ensures number { IfOk result (λ appended. appended ≡ number_of self.old.texts (text_at self.old.texts number ++ units.now)) }
        ensures texts { OnOk result (self.new.texts ≡ with_text self.old.texts (text_at self.old.texts number ++ units.now)) }
        ensures text { IfOk result (λ appended. IsNumber self.new.texts appended (text_at self.old.texts number ++ units.now)) }
        ensures extends { Extends self.old.texts self.new.texts }
        ensures err { OnErr result (self.new.texts ≡ self.old.texts) }
    {
        within(units.len(), MOST_UNITS - self.text(number).len())?;
        self.texts.append(number as usize, units)
    }

    /// The text of a known number. Takes no memory.
    pub fn text(&self, number: u64) -> &[u16]
        requires { number < length self.now.texts }
        ensures { result.now ≡ text_at self.now.texts number }
    {
        self.texts.text(number as usize)
    }
}
