//! The names of the options of two reports.

ghost use Rattle.std.specs.Prelude.{◌≡◌, ◌++◌, ◌∷◌, [], ◌≤◌, IfOk, OnOk, length, if◌then◌else◌};
ghost use Rattle.std.specs.Str.{bytes_eq};
ghost use Rattle.vx_compare.specs.Names.{all_names, is_new, place_of, places_of};

use std::alloc::{AllocError, Global};
use vx_value::Name;

fn is_name(other: &Name, name: &Name) -> bool
    ensures { result ≡ bytes_eq other.now name.now }
{
    other.bytes() == name.bytes()
}

/// The place of a name among others; their number, where it is none of them.
#[tactic(auto, using(vx_words::proofs::Parts::run_length, vx_words::proofs::Parts::run_within))]
fn place_of(names: &[Name], name: &Name) -> usize
    ensures value { result ≡ place_of names.now name.now }
    ensures within { result ≤ length names.now }
{
    names
        .iter()
        .take_while(|other| !is_name(other, name))
        .count()
}

/// The places of some names among others.
pub fn places_of(alloc: Global, all: &[Name], names: &[Name]) -> Result<Vec<usize>, AllocError>
    ensures { IfOk result (λ places. places.items ≡ places_of all.now names.now) }
{
    let mut places = Vec::new(alloc);
    for name in names {
        places.push(place_of(all, name))?;
    }
    Ok(places)
}

/// Names with the same bytes.
pub fn copied_names(alloc: Global, names: &[Name]) -> Result<Vec<Name>, AllocError>
    ensures { IfOk result (λ copies. copies.items ≡ names.now) }
{
    let mut copies = Vec::new(alloc);
    for name in names {
        copies.push(Name::of(alloc, name.bytes())?)?;
    }
    Ok(copies)
}

/// Puts a name behind others, unless it is among those of a report.
fn push_new(
    alloc: Global,
    all: &mut Vec<Name>,
    names: &[Name],
    name: &Name,
) -> Result<(), AllocError>
    ensures { OnOk result (all.new.items ≡ all.old.items ++ (if is_new names.now name.now then name.now ∷ [] else [])) }
{
    if place_of(names, name) == names.len() {
        all.push(Name::of(alloc, name.bytes())?)?;
    }
    Ok(())
}

/// The names of one report's options, and behind them those that the other one alone has.
pub fn all_names(alloc: Global, one: &[Name], other: &[Name]) -> Result<Vec<Name>, AllocError>
    ensures { IfOk result (λ names. names.items ≡ all_names one.now other.now) }
{
    let mut names = copied_names(alloc, one)?;
    for name in other {
        push_new(alloc, &mut names, one, name)?;
    }
    Ok(names)
}
