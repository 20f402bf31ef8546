//! The configuration that a word names: the options that are on, joined by commas, or `-` for none.

ghost use Rattle.std.specs.Prelude.{◌≡◌, IfOk, map, option_map};
ghost use Rattle.std.specs.List.{list_all};
ghost use Rattle.std.specs.Str.{bytes_eq};
ghost use Rattle.vx_configuration.specs.Configuration.{between_commas, names_in, is_among, are_distinct, with_these_on, configuration_of};

use std::alloc::{AllocError, Global};
use vx_space::Config;
use vx_value::Name;

/// What stands between the commas of a word.
fn between_commas(alloc: Global, word: &[u8]) -> Result<Vec<Name>, AllocError>
    ensures { IfOk result (λ names. names.items ≡ between_commas word.now) }
{
    let mut names = Vec::new(alloc);
    let mut start = 0;
    for i in 0..word.len() {
        if word[i] == b',' {
            names.push(Name::of(alloc, &word[start..i])?)?;
            start = i + 1;
        }
    }
    names.push(Name::of(alloc, &word[start..])?)?;
    Ok(names)
}

/// The names in a word.
fn names_in(alloc: Global, word: &[u8]) -> Result<Vec<Name>, AllocError>
    ensures { IfOk result (λ names. names.items ≡ names_in word.now) }
{
    if word == b"-".as_slice() {
        return Ok(Vec::new(alloc));
    }
    between_commas(alloc, word)
}

/// Whether two names are one.
fn is_same(name: &Name, other: &Name) -> bool
    ensures { result ≡ bytes_eq name.now other.now }
{
    name.bytes() == other.bytes()
}

/// Whether a name is among others.
fn is_among(names: &[Name], name: &Name) -> bool
    ensures { result ≡ is_among names.now name.now }
{
    names.iter().any(|other| is_same(name, other))
}

/// Whether each name is one of an option.
fn are_options(options: &[Name], names: &[Name]) -> bool
    ensures { result ≡ list_all (is_among options.now) names.now }
{
    names.iter().all(|name| is_among(options, name))
}

/// Whether no name stands twice.
fn are_distinct(names: &[Name]) -> bool
    ensures { result ≡ are_distinct names.now }
{
    let mut left = names;
    while let [name, others @ ..] = left {
        if is_among(others, name) {
            return false;
        }
        left = others;
    }
    true
}

/// The values of the options where those of these names are on.
fn with_these_on(alloc: Global, options: &[Name], names: &[Name]) -> Result<Vec<bool>, AllocError>
    ensures { IfOk result (λ values. values.items ≡ map (is_among names.now) options.now) }
{
    let mut values = Vec::new(alloc);
    for option in options {
        values.push(is_among(names, option))?;
    }
    Ok(values)
}

/// The values of these options at the configuration that a word names, or `None` where it names something that is no option, or an
/// option twice.
pub fn values_of(
    alloc: Global,
    options: &[Name],
    word: &[u8],
) -> Result<Option<Vec<bool>>, AllocError>
    ensures { IfOk result (λ found. option_map (λ values. values.items) found ≡ configuration_of options.now word.now) }
{
    let names = names_in(alloc, word)?;
    if !are_options(options, names.as_slice()) || !are_distinct(names.as_slice()) {
        return Ok(None);
    }
    Ok(Some(with_these_on(alloc, options, names.as_slice())?))
}

/// The configuration of these options that a word names, or `None` where it names something that is no option, or an
/// option twice.
pub fn configuration_of(
    alloc: Global,
    options: &[Name],
    word: &[u8],
) -> Result<Option<Config>, AllocError>
    ensures { IfOk result (λ c. c ≡ configuration_of options.now word.now) }
{
    let Some(values) = values_of(alloc, options, word)? else {
        return Ok(None);
    };
    Ok(Some(Config::new(alloc, values.as_slice())?))
}
