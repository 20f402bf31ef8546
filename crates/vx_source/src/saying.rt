//! What a line says, by its first word.

ghost use Rattle.std.specs.Prelude.{◌≡◌, take, IfOk, codes, if◌then◌else◌};
ghost use Rattle.std.specs.List.{list_any};
ghost use Rattle.vx_source_words.specs.Reading.{Read, Gives};
ghost use Rattle.vx_source_words.specs.Numbers.{are_four_hex, four_hex};
ghost use Rattle.vx_source_words.specs.Tokens.{word_at, begins_text};
ghost use Rattle.vx_source.specs.Operands.{is_word};
ghost use Rattle.vx_source.specs.Statements.{version_line, class_line, implements_line, is_member, value_of, field_line, room_of, method_line, end_line, catch_line, is_label, label_line, instruction_line, wide_line, is_part, part_line, body_line, line_said, loads_text, gives_text, text_place, has_stray_text, refused_too, statement_of};

use crate::operands::{
    int_of, is_text, literal, long_of, operand_of, others, version_of, wide_operand_of,
};
use crate::statement::{
    CatchLine, ClassLine, FieldLine, Instruction, MethodLine, Room, Statement, Value,
};
use std::alloc::{AllocError, Global};
use vx_source_words::{
    LineFault, are_four_hex, begins_text, byte_at, four_hex, front, is_within, is_word, opcode_of,
    refused, spelled, word_at,
};
use vx_value::Name;

/// The name that a word is.
fn name_at(alloc: Global, words: &[Name], place: usize) -> Result<Name, AllocError>
    ensures { IfOk result (λ name. name ≡ word_at words.now place) }
{
    Name::of(alloc, word_at(words, place))
}

/// Flags of four hexadecimal digits, behind the first word.
fn flags(words: &[Name]) -> u16
    ensures { result ≡ four_hex (word_at words.now 1) }
{
    four_hex(word_at(words, 1))
}

fn has_flags(words: &[Name]) -> bool
    ensures { result ≡ are_four_hex (word_at words.now 1) }
{
    are_four_hex(word_at(words, 1))
}

#[tactic(auto, unfolding(crate::specs::Statements::version_line))]
fn version_line(words: &[Name]) -> Result<Statement, LineFault>
    ensures { Gives result (version_line words.now) }
{
    if words.len() != 2 {
        return refused(2);
    }
    Ok(Statement::Version(version_of(word_at(words, 1))?))
}

#[tactic(auto, unfolding(crate::specs::Statements::class_line))]
fn class_line(alloc: Global, words: &[Name]) -> Result<Statement, LineFault>
    ensures { Gives result (class_line words.now) }
{
    if words.len() != 4 || !has_flags(words) {
        return refused(2);
    }
    Ok(Statement::Class(ClassLine {
        flags: flags(words),
        name: name_at(alloc, words, 2)?,
        super_class: name_at(alloc, words, 3)?,
    }))
}

#[tactic(auto, unfolding(crate::specs::Statements::implements_line))]
fn implements_line(alloc: Global, words: &[Name]) -> Result<Statement, LineFault>
    ensures { Gives result (implements_line words.now) }
{
    if words.len() != 2 {
        return refused(2);
    }
    Ok(Statement::Implements(name_at(alloc, words, 1)?))
}

/// Whether the words are those of a field or method.
fn is_member(words: &[Name]) -> bool
    ensures { result ≡ is_member words.now }
{
    (words.len() == 4 || words.len() == 6) && has_flags(words)
}

#[tactic(auto, unfolding(crate::specs::Statements::value_of))]
fn value_of(alloc: Global, words: &[Name]) -> Result<Value, LineFault>
    ensures { Gives result (value_of words.now) }
{
    if words.len() == 4 {
        return Ok(Value::Nothing);
    }
    let word = word_at(words, 5);
    if is_word(words, 4, b"int") {
        return Ok(Value::Int(int_of(word)?));
    }
    if is_word(words, 4, b"long") {
        return Ok(Value::Long(long_of(word)?));
    }
    if is_word(words, 4, b"string") {
        return Ok(Value::Text(literal(alloc, word)?));
    }
    refused(2)
}

#[tactic(auto, unfolding(crate::specs::Statements::field_line))]
fn field_line(alloc: Global, words: &[Name]) -> Result<Statement, LineFault>
    ensures { Gives result (field_line words.now) }
{
    if !is_member(words) {
        return refused(2);
    }
    let value = value_of(alloc, words)?;
    Ok(Statement::Field(FieldLine {
        flags: flags(words),
        name: name_at(alloc, words, 2)?,
        descriptor: name_at(alloc, words, 3)?,
        value,
    }))
}

#[tactic(auto, unfolding(crate::specs::Statements::room_of))]
fn room_of(words: &[Name]) -> Result<Option<Room>, LineFault>
    ensures { Gives result (room_of words.now) }
{
    if words.len() == 4 {
        return Ok(None);
    }
    let stack = spelled(word_at(words, 4))?;
    let locals = spelled(word_at(words, 5))?;
    if !is_within(0, 0xffff, stack) || !is_within(0, 0xffff, locals) {
        return refused(3);
    }
    Ok(Some(Room {
        max_stack: stack.magnitude as u16,
        max_locals: locals.magnitude as u16,
    }))
}

#[tactic(auto, unfolding(crate::specs::Statements::method_line))]
fn method_line(alloc: Global, words: &[Name]) -> Result<Statement, LineFault>
    ensures { Gives result (method_line words.now) }
{
    if !is_member(words) {
        return refused(2);
    }
    let room = room_of(words)?;
    Ok(Statement::Method(MethodLine {
        flags: flags(words),
        name: name_at(alloc, words, 2)?,
        descriptor: name_at(alloc, words, 3)?,
        room,
    }))
}

#[tactic(auto, unfolding(crate::specs::Statements::end_line))]
fn end_line(words: &[Name]) -> Result<Statement, LineFault>
    ensures { Gives result (end_line words.now) }
{
    if words.len() != 1 {
        return refused(2);
    }
    Ok(Statement::End)
}

/// The class of a catch row, or `None` for any.
fn caught(alloc: Global, words: &[Name]) -> Result<Option<Name>, AllocError>
    ensures { IfOk result (λ class. class ≡ (if is_word words.now 4 (codes "any") then None else Some (word_at words.now 4))) }
{
    if is_word(words, 4, b"any") {
        return Ok(None);
    }
    Ok(Some(name_at(alloc, words, 4)?))
}

#[tactic(auto, unfolding(crate::specs::Statements::catch_line))]
fn catch_line(alloc: Global, words: &[Name]) -> Result<Statement, LineFault>
    ensures { Gives result (catch_line words.now) }
{
    if words.len() != 5 {
        return refused(2);
    }
    Ok(Statement::Catch(CatchLine {
        start: name_at(alloc, words, 1)?,
        end: name_at(alloc, words, 2)?,
        handler: name_at(alloc, words, 3)?,
        class: caught(alloc, words)?,
    }))
}

fn is_label(word: &[u8]) -> bool
    ensures { result ≡ is_label word.now }
{
    word.len() > 1 && byte_at(word, word.len().saturating_sub(1)) == b':'
}

#[tactic(auto, unfolding(crate::specs::Statements::label_line))]
fn label_line(alloc: Global, words: &[Name]) -> Result<Statement, LineFault>
    ensures { Gives result (label_line words.now) }
{
    if words.len() != 1 {
        return refused(2);
    }
    let word = word_at(words, 0);
    let label = front(word, word.len().saturating_sub(1));
    Ok(Statement::Label(Name::of(alloc, label)?))
}

#[tactic(auto, unfolding(crate::specs::Statements::instruction_line))]
fn instruction_line(alloc: Global, words: &[Name]) -> Result<Statement, LineFault>
    ensures { Gives result (instruction_line words.now) }
{
    match opcode_of(word_at(words, 0)) {
        None => refused(1),
        Some(opcode) => {
            let operand = operand_of(alloc, opcode, words)?;
            Ok(Statement::Instruction(Instruction {
                opcode,
                wide: false,
                operand,
            }))
        }
    }
}

#[tactic(auto, unfolding(crate::specs::Statements::wide_line))]
fn wide_line(words: &[Name]) -> Result<Statement, LineFault>
    ensures { Gives result (wide_line words.now) }
{
    if words.len() < 2 {
        return refused(2);
    }
    match opcode_of(word_at(words, 1)) {
        None => refused(1),
        Some(opcode) => {
            let operand = wide_operand_of(opcode, words)?;
            Ok(Statement::Instruction(Instruction {
                opcode,
                wide: true,
                operand,
            }))
        }
    }
}

/// Whether a part of a class begins with a word.
pub fn is_part(word: &[u8]) -> bool
    ensures { result ≡ is_part word.now }
{
    is_text(word, b"version")
        || is_text(word, b"class")
        || is_text(word, b"implements")
        || is_text(word, b"field")
        || is_text(word, b"method")
}

#[tactic(auto, unfolding(crate::specs::Statements::part_line))]
fn part_line(alloc: Global, words: &[Name]) -> Result<Statement, LineFault>
    ensures { Gives result (part_line words.now) }
{
    if is_word(words, 0, b"version") {
        return version_line(words);
    }
    if is_word(words, 0, b"class") {
        return class_line(alloc, words);
    }
    if is_word(words, 0, b"implements") {
        return implements_line(alloc, words);
    }
    if is_word(words, 0, b"field") {
        return field_line(alloc, words);
    }
    method_line(alloc, words)
}

#[tactic(auto, unfolding(crate::specs::Statements::body_line))]
fn body_line(alloc: Global, words: &[Name]) -> Result<Statement, LineFault>
    ensures { Gives result (body_line words.now) }
{
    if is_word(words, 0, b"end") {
        return end_line(words);
    }
    if is_word(words, 0, b"catch") {
        return catch_line(alloc, words);
    }
    if is_word(words, 0, b"wide") {
        return wide_line(words);
    }
    if is_label(word_at(words, 0)) {
        return label_line(alloc, words);
    }
    instruction_line(alloc, words)
}

#[tactic(auto, unfolding(crate::specs::Statements::line_said))]
fn line_said(alloc: Global, words: &[Name]) -> Result<Statement, LineFault>
    ensures { Gives result (line_said words.now) }
{
    if is_part(word_at(words, 0)) {
        return part_line(alloc, words);
    }
    body_line(alloc, words)
}

fn loads_text(words: &[Name]) -> bool
    ensures { result ≡ loads_text words.now }
{
    (is_word(words, 0, b"ldc") || is_word(words, 0, b"ldc_w")) && is_word(words, 1, b"string")
}

fn gives_text(words: &[Name]) -> bool
    ensures { result ≡ gives_text words.now }
{
    is_word(words, 0, b"field") && is_word(words, 4, b"string")
}

/// The place of the one word that is to be a text, or the place behind the last one.
fn text_place(words: &[Name]) -> usize
    ensures { result ≡ text_place words.now }
{
    if loads_text(words) {
        2
    } else if gives_text(words) {
        5
    } else {
        words.len()
    }
}

fn has_text(words: &[Name]) -> bool
    ensures { result ≡ list_any begins_text words.now }
{
    words.iter().any(|word| begins_text(word.bytes()))
}

/// The words before a place.
fn words_before(words: &[Name], place: usize) -> &[Name]
    ensures { result.now ≡ take place words.now }
{
    &words[..place.min(words.len())]
}

/// Whether a text stands where none is expected.
#[tactic(auto, unfolding(crate::specs::Statements::has_stray_text))]
fn has_stray_text(words: &[Name]) -> bool
    ensures { result ≡ has_stray_text words.now }
{
    let place = text_place(words);
    has_text(words_before(words, place)) || has_text(others(words, place.saturating_add(1)))
}

/// What was said is refused, with the lesser one of two reasons.
fn refused_too(reason: u8, said: Result<Statement, LineFault>) -> Result<Statement, LineFault>
    ensures { (read : Read Statement) → Gives said read → Gives result (refused_too reason read) }
{
    match said {
        Ok(_) => refused(reason),
        Err(LineFault::Refused(other)) => refused(other.min(reason)),
        Err(LineFault::NoMemory) => Err(LineFault::NoMemory),
    }
}

/// What the words of a line say. A text where none is expected is reason 2.
pub fn statement_of(alloc: Global, words: &[Name]) -> Result<Statement, LineFault>
    ensures { Gives result (statement_of words.now) }
{
    let said = line_said(alloc, words);
    if has_stray_text(words) {
        return refused_too(2, said);
    }
    said
}
