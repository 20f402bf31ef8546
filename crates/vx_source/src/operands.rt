//! What may stand behind a mnemonic.

ghost use Rattle.std.specs.Prelude.{◌≡◌, ◌+◌, ◌-◌, ◌≤◌, ◌<◌, ◌==◌, ◌&&◌, length, drop, map, pos, true, false, position, int_le, ◌+ℤ◌, IfOk, IsTrue};
ghost use Rattle.std.specs.List.{list_all};
ghost use Rattle.std.specs.Str.{bytes_eq};
ghost use Rattle.vx_source_words.specs.Reading.{Gives, check};
ghost use Rattle.vx_source_words.specs.Numbers.{is_within, value, number_of};
ghost use Rattle.vx_source.specs.Operands.{ranged, version_of, int_of, long_of, number_operand, local_operand, increment_operand, literal, constant_operand, long_operand, class_operand, jump_operand, member, member_operand, call_operand, kind_of, array_operand, dimensions_operand, table_operand, colon, key_word, is_case, key_of, has_key, case_of, lookup_operand, pool_operand, shaped_operand, operand_of, wide_operand_of};

use crate::statement::{Case, Lookup, Member, Operand, Table};
use std::alloc::{AllocError, Global};
use vx_list::Items;
use vx_opcode::{Shape, shape_behind};
use vx_source_words::{
    INVOKESPECIAL, INVOKESTATIC, LDC_W, LDC2_W, LineFault, NEW, Number, behind, front, is_within,
    is_word, number_of, refused, spelled, text_of, value, word_at,
};
use vx_value::Name;

/// A number in a range from `-low` to `high`.
fn ranged(low: u64, high: u64, word: &[u8]) -> Result<Number, LineFault>
    ensures value { Gives result (ranged low high word.now) }
    ensures within { IfOk result (λ n. IsTrue (is_within low high n)) }
{
    let number = spelled(word)?;
    if !is_within(low, high, number) {
        return refused(3);
    }
    Ok(number)
}

/// A major version, from 45 to 52.
#[tactic(auto, unfolding(crate::specs::Operands::version_of))]
pub fn version_of(word: &[u8]) -> Result<u16, LineFault>
    ensures { Gives result (version_of word.now) }
{
    let number = ranged(0, 52, word)?;
    if number.magnitude < 45 {
        return refused(3);
    }
    Ok(number.magnitude as u16)
}

/// The value of a number that 32 bits hold.
fn int_value(number: Number) -> i32
    requires { IsTrue (is_within 0x8000_0000 0x7fff_ffff number) }
    ensures { result ≡ value number }
{
    if number.negative {
        (-(number.magnitude as i64)) as i32
    } else {
        number.magnitude as i32
    }
}

#[tactic(auto, unfolding(crate::specs::Operands::int_of))]
pub fn int_of(word: &[u8]) -> Result<i32, LineFault>
    ensures { Gives result (int_of word.now) }
{
    let number = ranged(0x8000_0000, 0x7fff_ffff, word)?;
    Ok(int_value(number))
}

#[tactic(auto, unfolding(crate::specs::Operands::long_of))]
pub fn long_of(word: &[u8]) -> Result<i64, LineFault>
    ensures { Gives result (long_of word.now) }
{
    let number = ranged(0x8000_0000_0000_0000, 0x7fff_ffff_ffff_ffff, word)?;
    Ok(value(number))
}

#[tactic(auto, unfolding(crate::specs::Operands::number_operand))]
fn number_operand(words: &[Name], low: u16, high: u16) -> Result<Operand, LineFault>
    ensures { Gives result (number_operand words.now low high) }
{
    if words.len() != 2 {
        return refused(2);
    }
    let number = ranged(u64::from(low), u64::from(high), word_at(words, 1))?;
    Ok(Operand::Number(int_value(number)))
}

#[tactic(auto, unfolding(crate::specs::Operands::local_operand))]
fn local_operand(words: &[Name], from: usize, high: u16) -> Result<Operand, LineFault>
    requires { from < 2 }
    ensures { Gives result (local_operand words.now from high) }
{
    if words.len() != from + 2 {
        return refused(2);
    }
    let number = ranged(0, u64::from(high), word_at(words, from + 1))?;
    Ok(Operand::Local(number.magnitude as u16))
}

/// The value of a number that 16 bits hold.
fn short_value(number: Number) -> i16
    requires { IsTrue (is_within 0x8000 0x7fff number) }
    ensures { result ≡ value number }
{
    if number.negative {
        (-(number.magnitude as i32)) as i16
    } else {
        number.magnitude as i16
    }
}

#[tactic(auto, unfolding(crate::specs::Operands::increment_operand))]
fn increment_operand(words: &[Name], from: usize, high: u16, by: u16) -> Result<Operand, LineFault>
    requires place { from < 2 }
    requires few { by ≤ 0x8000 }
    ensures { Gives result (increment_operand words.now from high by) }
{
    if words.len() != from + 3 {
        return refused(2);
    }
    let local = spelled(word_at(words, from + 1))?;
    let number = spelled(word_at(words, from + 2))?;
    let by = u64::from(by);
    if !is_within(0, u64::from(high), local) || !is_within(by, by.saturating_sub(1), number) {
        return refused(3);
    }
    Ok(Operand::Increment(local.magnitude as u16, short_value(number)))
}

/// A text, or none where the word is no text.
pub fn literal(alloc: Global, word: &[u8]) -> Result<Option<Name>, AllocError>
    ensures { IfOk result (λ text. text ≡ literal word.now) }
{
    match text_of(alloc, word) {
        Ok(text) => Ok(Some(Name::from_vec(text))),
        Err(LineFault::Refused(_)) => Ok(None),
        Err(LineFault::NoMemory) => Err(AllocError),
    }
}

#[tactic(auto, unfolding(crate::specs::Operands::constant_operand))]
fn constant_operand(alloc: Global, words: &[Name]) -> Result<Operand, LineFault>
    ensures { Gives result (constant_operand words.now) }
{
    if words.len() != 3 {
        return refused(2);
    }
    let word = word_at(words, 2);
    if is_word(words, 1, b"int") {
        return Ok(Operand::Int(int_of(word)?));
    }
    if is_word(words, 1, b"string") {
        return Ok(Operand::Text(literal(alloc, word)?));
    }
    if is_word(words, 1, b"class") {
        return Ok(Operand::Class(Name::of(alloc, word)?));
    }
    refused(2)
}

#[tactic(auto, unfolding(crate::specs::Operands::long_operand))]
fn long_operand(words: &[Name]) -> Result<Operand, LineFault>
    ensures { Gives result (long_operand words.now) }
{
    if words.len() != 3 || !is_word(words, 1, b"long") {
        return refused(2);
    }
    Ok(Operand::Long(long_of(word_at(words, 2))?))
}

#[tactic(auto, unfolding(crate::specs::Operands::class_operand))]
fn class_operand(alloc: Global, words: &[Name]) -> Result<Operand, LineFault>
    ensures { Gives result (class_operand words.now) }
{
    if words.len() != 2 {
        return refused(2);
    }
    Ok(Operand::Class(Name::of(alloc, word_at(words, 1))?))
}

#[tactic(auto, unfolding(crate::specs::Operands::jump_operand))]
fn jump_operand(alloc: Global, words: &[Name]) -> Result<Operand, LineFault>
    ensures { Gives result (jump_operand words.now) }
{
    if words.len() != 2 {
        return refused(2);
    }
    Ok(Operand::Jump(Name::of(alloc, word_at(words, 1))?))
}

/// A class, a name and a descriptor, the first of which stands at a place.
fn member(
    alloc: Global,
    words: &[Name],
    interface: bool,
    place: usize,
) -> Result<Operand, AllocError>
    requires { place < 3 }
    ensures { IfOk result (λ o. o ≡ member words.now interface place) }
{
    Ok(Operand::Member(Member {
        interface,
        class: Name::of(alloc, word_at(words, place))?,
        name: Name::of(alloc, word_at(words, place + 1))?,
        descriptor: Name::of(alloc, word_at(words, place + 2))?,
    }))
}

#[tactic(auto, unfolding(crate::specs::Operands::member_operand))]
fn member_operand(alloc: Global, words: &[Name]) -> Result<Operand, LineFault>
    ensures { Gives result (member_operand words.now) }
{
    if words.len() != 4 {
        return refused(2);
    }
    Ok(member(alloc, words, false, 1)?)
}

#[tactic(auto, unfolding(crate::specs::Operands::call_operand))]
fn call_operand(alloc: Global, words: &[Name]) -> Result<Operand, LineFault>
    ensures { Gives result (call_operand words.now) }
{
    if words.len() == 5 && is_word(words, 1, b"interface") {
        return Ok(member(alloc, words, true, 2)?);
    }
    member_operand(alloc, words)
}

/// Whether a word is a text.
pub fn is_text(word: &[u8], text: &[u8]) -> bool
    ensures { result ≡ bytes_eq word.now text.now }
{
    word == text
}

/// The kind of an array of primitives.
fn kind_of(word: &[u8]) -> Option<u8>
    ensures { result ≡ kind_of word.now }
{
    if is_text(word, b"boolean") {
        Some(4)
    } else if is_text(word, b"char") {
        Some(5)
    } else if is_text(word, b"byte") {
        Some(8)
    } else if is_text(word, b"short") {
        Some(9)
    } else if is_text(word, b"int") {
        Some(10)
    } else if is_text(word, b"long") {
        Some(11)
    } else {
        None
    }
}

#[tactic(auto, unfolding(crate::specs::Operands::array_operand))]
fn array_operand(words: &[Name]) -> Result<Operand, LineFault>
    ensures { Gives result (array_operand words.now) }
{
    if words.len() != 2 {
        return refused(2);
    }
    match kind_of(word_at(words, 1)) {
        None => refused(2),
        Some(kind) => Ok(Operand::Number(i32::from(kind))),
    }
}

#[tactic(auto, unfolding(crate::specs::Operands::dimensions_operand))]
fn dimensions_operand(alloc: Global, words: &[Name]) -> Result<Operand, LineFault>
    ensures { Gives result (dimensions_operand words.now) }
{
    if words.len() != 3 {
        return refused(2);
    }
    let number = ranged(0, 255, word_at(words, 2))?;
    let class = Name::of(alloc, word_at(words, 1))?;
    Ok(Operand::Dimensions(class, number.magnitude as u8))
}

fn copies(alloc: Global, words: &[Name]) -> Result<Vec<Name>, AllocError>
    ensures { IfOk result (λ v. v.items ≡ words.now) }
{
    let mut copies = Vec::new(alloc);
    for word in words {
        copies.push(Name::of(alloc, word.bytes())?)?;
    }
    Ok(copies)
}

/// Whether the greatest key of a table is an int.
fn is_int_table(low: i32, labels: usize) -> bool
    ensures { result ≡ int_le (low +ℤ pos labels) (pos 0x8000_0000) }
{
    i128::from(low) + labels as i128 <= 0x8000_0000
}

#[tactic(auto, unfolding(crate::specs::Operands::table_operand))]
fn table_operand(alloc: Global, words: &[Name]) -> Result<Operand, LineFault>
    ensures { Gives result (table_operand words.now) }
{
    if words.len() < 4 {
        return refused(2);
    }
    let low = int_of(word_at(words, 1))?;
    if !is_int_table(low, words.len() - 3) {
        return refused(3);
    }
    let fallback = Name::of(alloc, word_at(words, 2))?;
    let labels = copies(alloc, others(words, 3))?;
    Ok(Operand::Table(Table {
        low,
        fallback,
        labels: Items::of(labels),
    }))
}

fn first_colon(word: &[u8]) -> Option<usize>
    ensures { result ≡ position (λ b. b == 58) word.now }
{
    word.iter().position(|b| *b == b':')
}

/// The place of the first colon, or the length where there is none.
fn colon(word: &[u8]) -> usize
    ensures value { result ≡ colon word.now }
    ensures within { result ≤ length word.now }
{
    match first_colon(word) {
        Some(place) => place,
        None => word.len(),
    }
}

fn key_number(word: &[u8]) -> Option<Number>
    ensures { result ≡ number_of (key_word word.now) }
{
    number_of(front(word, colon(word)))
}

fn is_case(word: &[u8]) -> bool
    ensures { result ≡ is_case word.now }
{
    colon(word) < word.len() && key_number(word).is_some()
}

fn has_key(word: &[u8]) -> bool
    ensures { result ≡ has_key word.now }
{
    match key_number(word) {
        None => false,
        Some(number) => is_within(0x8000_0000, 0x7fff_ffff, number),
    }
}

fn key_of(word: &[u8]) -> i32
    ensures { result ≡ key_of word.now }
{
    match key_number(word) {
        None => 0,
        Some(number) if is_within(0x8000_0000, 0x7fff_ffff, number) => int_value(number),
        Some(_) => 0,
    }
}

fn case_of(alloc: Global, word: &[u8]) -> Result<Case, AllocError>
    ensures { IfOk result (λ case. case ≡ case_of word.now) }
{
    let label = Name::of(alloc, behind(word, colon(word) + 1))?;
    Ok(Case {
        key: key_of(word),
        label,
    })
}

fn are_cases(words: &[Name]) -> bool
    ensures { result ≡ list_all is_case words.now }
{
    words.iter().all(|word| is_case(word.bytes()))
}

fn have_keys(words: &[Name]) -> bool
    ensures { result ≡ list_all has_key words.now }
{
    words.iter().all(|word| has_key(word.bytes()))
}

fn cases_of(alloc: Global, words: &[Name]) -> Result<Vec<Case>, AllocError>
    ensures { IfOk result (λ v. v.items ≡ map case_of words.now) }
{
    let mut cases = Vec::new(alloc);
    for word in words {
        cases.push(case_of(alloc, word.bytes())?)?;
    }
    Ok(cases)
}

/// The words from a place on, as they stand.
pub fn others(words: &[Name], place: usize) -> &[Name]
    ensures { result.now ≡ drop place words.now }
{
    &words[place.min(words.len())..]
}

#[tactic(auto, unfolding(crate::specs::Operands::lookup_operand))]
fn lookup_operand(alloc: Global, words: &[Name]) -> Result<Operand, LineFault>
    ensures { Gives result (lookup_operand words.now) }
{
    let cases = others(words, 2);
    if words.len() < 2 || !are_cases(cases) {
        return refused(2);
    }
    if !have_keys(cases) {
        return refused(3);
    }
    let fallback = Name::of(alloc, word_at(words, 1))?;
    let cases = cases_of(alloc, cases)?;
    Ok(Operand::Lookup(Lookup {
        fallback,
        cases: Items::of(cases),
    }))
}

#[tactic(auto, unfolding(crate::specs::Operands::pool_operand))]
fn pool_operand(alloc: Global, opcode: u8, words: &[Name]) -> Result<Operand, LineFault>
    ensures { Gives result (pool_operand opcode words.now) }
{
    if opcode == LDC_W {
        return constant_operand(alloc, words);
    }
    if opcode == LDC2_W {
        return long_operand(words);
    }
    if opcode == INVOKESPECIAL || opcode == INVOKESTATIC {
        return call_operand(alloc, words);
    }
    if opcode >= NEW {
        return class_operand(alloc, words);
    }
    member_operand(alloc, words)
}

fn no_operand(words: &[Name]) -> Result<Operand, LineFault>
    ensures { Gives result (check (length words.now == 1) 2 (Ok Operand.Nothing)) }
{
    if words.len() != 1 {
        return refused(2);
    }
    Ok(Operand::Nothing)
}

#[tactic(auto, unfolding(crate::specs::Operands::shaped_operand))]
fn shaped_operand(
    alloc: Global,
    shape: Shape,
    opcode: u8,
    words: &[Name],
) -> Result<Operand, LineFault>
    ensures { Gives result (shaped_operand shape opcode words.now) }
{
    match shape {
        Shape::Plain => no_operand(words),
        Shape::Byte => number_operand(words, 128, 127),
        Shape::Short => number_operand(words, 32768, 32767),
        Shape::PoolByte => constant_operand(alloc, words),
        Shape::Pool => pool_operand(alloc, opcode, words),
        Shape::Local => local_operand(words, 0, 255),
        Shape::Increment => increment_operand(words, 0, 255, 128),
        Shape::Jump | Shape::JumpWide => jump_operand(alloc, words),
        Shape::Interface => member_operand(alloc, words),
        Shape::Array => array_operand(words),
        Shape::Dimensions => dimensions_operand(alloc, words),
        Shape::Table => table_operand(alloc, words),
        Shape::Lookup => lookup_operand(alloc, words),
        Shape::Dynamic | Shape::Wide => refused(1),
    }
}

/// The operand of an instruction.
pub fn operand_of(alloc: Global, opcode: u8, words: &[Name]) -> Result<Operand, LineFault>
    ensures { Gives result (operand_of opcode words.now) }
{
    match shape_behind(opcode) {
        None => refused(1),
        Some(shape) => shaped_operand(alloc, shape, opcode, words),
    }
}

/// The operand behind `wide` and a mnemonic.
pub fn wide_operand_of(opcode: u8, words: &[Name]) -> Result<Operand, LineFault>
    ensures { Gives result (wide_operand_of opcode words.now) }
{
    match shape_behind(opcode) {
        Some(Shape::Local) => local_operand(words, 1, 0xffff),
        Some(Shape::Increment) => increment_operand(words, 1, 0xffff, 32768),
        _ => refused(2),
    }
}
