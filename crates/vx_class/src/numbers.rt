//! Numbers of the texts of a pool, by which members with the same name and descriptor are found (JVMS 4.5, 4.6).

ghost use Rattle.std.specs.Prelude.{◌≡◌, ◌++◌, ◌∷◌, [], fold, map, get_or, not, IfOk, OnErr, OnOk};
ghost use Rattle.std.specs.Bool.{OnTrue};
ghost use Rattle.std.specs.List.{list_any};
ghost use Rattle.vx_class.specs.Numbers.{with_entry, entry_number, numbers_of, key_of, same_key};

use indexmap::IndexSet;
use std::alloc::{AllocError, Global};
use std::hash::{DefaultHasher, Hasher};
use vx_list::{Items, Keyed};
use vx_names::NameTable;
use vx_pool::{Entry, Pool};

/// A key that is made of all texts.
fn key_of(entries: &[Entry]) -> Keyed {
    let mut read = DefaultHasher::new();
    for entry in entries {
        if let Entry::Utf8(text) = entry {
            read.write(text.as_slice());
        }
    }
    Keyed::after(&read)
}

fn add_entry(alloc: Global, names: &mut NameTable, entry: &Entry) -> Result<(), AllocError>
    ensures { OnOk result (names.new ≡ with_entry names.old entry.now) }
{
    if let Entry::Utf8(text) = entry {
        names.add(Vec::from_slice(alloc, text.as_slice())?)?;
    }
    Ok(())
}

fn add_entries(alloc: Global, names: &mut NameTable, entries: &[Entry]) -> Result<(), AllocError>
    ensures { OnOk result (names.new ≡ fold with_entry names.old entries.now) }
{
    for entry in entries {
        add_entry(alloc, names, entry)?;
    }
    Ok(())
}

/// The number of a text, from 1 on, or 0 for an entry that is none.
fn entry_number(names: &NameTable, entry: &Entry) -> usize
    ensures { result ≡ entry_number names.now entry.now }
{
    let Entry::Utf8(text) = entry else {
        return 0;
    };
    match names.place_of(text.as_slice()) {
        Some(place) => names.len() - place,
        None => 0,
    }
}

fn entry_numbers(
    alloc: Global,
    names: &NameTable,
    entries: &[Entry],
) -> Result<Items<usize>, AllocError>
    ensures { IfOk result (λ numbers. numbers ≡ map (entry_number names.now) entries.now) }
{
    let mut numbers = Vec::new(alloc);
    for entry in entries {
        numbers.push(entry_number(names, entry))?;
    }
    Ok(Items::of(numbers))
}

/// The numbers of the texts of a pool by their indices: two texts are the same where their numbers are.
#[tactic(auto, unfolding(crate::specs::Numbers::names_of))]
pub fn numbers_of(alloc: Global, pool: &Pool) -> Result<Items<usize>, AllocError>
    ensures { IfOk result (λ numbers. numbers ≡ numbers_of pool.now) }
{
    let entries = pool.entries.as_slice();
    let mut names = NameTable::keyed(alloc, key_of(entries));
    add_entries(alloc, &mut names, entries)?;
    entry_numbers(alloc, &names, entries)
}

/// The number of a text.
fn number(numbers: &[usize], index: u16) -> usize
    ensures { result ≡ get_or numbers.now index 0 }
{
    let index = index as usize;
    if index < numbers.len() {
        numbers[index]
    } else {
        0
    }
}

/// The names and descriptors of members, by their numbers.
pub type Taken = IndexSet<(usize, usize)>;

/// Takes the name and the descriptor of a member, and says whether no member had both before. Want of memory leaves those taken as they
/// were.
pub fn take(
    taken: &mut Taken,
    numbers: &[usize],
    name: u16,
    descriptor: u16,
) -> Result<bool, AllocError>
    ensures is_new { IfOk result (λ is_new. is_new ≡ not (list_any (same_key (key_of numbers.now name descriptor)) taken.old.keys)) }
    ensures taken { IfOk result (λ is_new. OnTrue is_new (taken.new.keys ≡ taken.old.keys ++ key_of numbers.now name descriptor ∷ [])) }
    ensures err { OnErr result (taken.new.keys ≡ taken.old.keys) }
{
    Ok(taken.insert((number(numbers, name), number(numbers, descriptor)))?)
}
