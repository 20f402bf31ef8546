//! The line that some bytes spell.

ghost use Rattle.std.specs.Prelude.{◌≡◌, ◌≤◌, ◌-◌, ◌^◌, negsuc, IfOk, IfSome};
ghost use Rattle.vx_value.specs.declared.end.Stream.{Stream};
ghost use Rattle.vx_report_line.specs.Forms.{is_named, IsSpelled, IsOnly};
ghost use Rattle.vx_report_line.specs.Parsing.{negative_in, positive_in, code_in, kind_in, unsupported_in, named_end_in, end_in, node_line_in, piece_in, end_line_in, attempts_in, head_in, count_in, name_in, limit_in, rounds_in, setting_in, front_in, last_in, printed_in, line_in};
ghost use Rattle.std.specs.Str.{bytes_eq};

use crate::words::{behind, cut, leading, number, number_below, root, text_in, wide_number};
use std::alloc::{AllocError, Global};
use vx_bdd_tools::Node;
use vx_report::line::Line;
use vx_report::{AttemptLine, EndLine, Piece};
use vx_value::{End, Name, Stream};
use vx_words::{TEXT, WORD, is_name};

fn is_word(text: &[u8], word: &[u8]) -> bool
    ensures { result ≡ bytes_eq text.now word.now }
{
    text == word
}

fn negated(n: u64) -> i32
    requires low { 1 ≤ n }
    requires high { n ≤ 2 ^ 31 }
    ensures { result ≡ negsuc (n - 1) }
{
    -((n - 1) as i32) - 1
}

#[tactic(auto, unfolding(crate::specs::Parsing::negative_in))]
fn negative(digits: &[u8]) -> Option<i32>
    ensures { result ≡ negative_in digits.now }
{
    let n = number_below(2_147_483_649, digits)?;
    if n >= 1 { Some(negated(n)) } else { None }
}

#[tactic(auto, unfolding(crate::specs::Parsing::positive_in))]
fn positive(digits: &[u8]) -> Option<i32>
    ensures { result ≡ positive_in digits.now }
{
    let n = number_below(2_147_483_648, digits)?;
    Some(n as i32)
}

#[tactic(auto, unfolding(crate::specs::Parsing::code_in))]
fn exit_code(text: &[u8]) -> Option<i32>
    ensures { result ≡ code_in text.now }
{
    match behind(b"-", text) {
        Some(digits) => negative(digits),
        None => positive(text),
    }
}

#[tactic(auto, unfolding(crate::specs::Parsing::kind_in))]
fn kind_of_word(word: &[u8]) -> Option<u8>
    ensures { result ≡ kind_in word.now }
{
    if is_word(word, b"float") {
        return Some(1);
    }
    if is_word(word, b"subroutine") {
        return Some(2);
    }
    if is_word(word, b"dynamic") {
        return Some(3);
    }
    if is_word(word, b"constant") {
        return Some(4);
    }
    if is_word(word, b"native") {
        return Some(5);
    }
    if is_word(word, b"class") {
        return Some(6);
    }
    if is_word(word, b"field") {
        return Some(7);
    }
    if is_word(word, b"method") {
        Some(8)
    } else {
        None
    }
}

fn is_named(word: u8, what: &[u8]) -> bool
    ensures { result ≡ is_named word what.now }
{
    word >= 5 || is_word(what, b"-")
}

#[tactic(auto, unfolding(crate::specs::Parsing::unsupported_in))]
fn unsupported(alloc: Global, text: &[u8]) -> Result<Option<End>, AllocError>
    ensures { IfOk result (λ end. end ≡ unsupported_in text.now) }
{
    let Some((kind, rest)) = cut(text) else {
        return Ok(None);
    };
    let Some(word) = kind_of_word(kind) else {
        return Ok(None);
    };
    let Some((what, place)) = cut(rest) else {
        return Ok(None);
    };
    let Some(what) = text_in(alloc, WORD, what)? else {
        return Ok(None);
    };
    let Some(place) = text_in(alloc, WORD, place)? else {
        return Ok(None);
    };
    if is_named(word, what.bytes()) {
        Ok(Some(End::Unsupported { word, what, place }))
    } else {
        Ok(None)
    }
}

/// An end of one word.
fn named_end(alloc: Global, text: &[u8]) -> Result<Option<End>, AllocError>
    ensures { IfOk result (λ end. end ≡ named_end_in text.now) }
{
    if let Some(class) = behind(b"uncaught ", text) {
        let class = text_in(alloc, WORD, class)?;
        return Ok(class.map(End::Uncaught));
    }
    if let Some(place) = behind(b"illegal ", text) {
        let place = text_in(alloc, WORD, place)?;
        return Ok(place.map(End::Illegal));
    }
    Ok(None)
}

#[tactic(auto, unfolding(crate::specs::Parsing::end_in))]
fn end_in(alloc: Global, text: &[u8]) -> Result<Option<End>, AllocError>
    ensures { IfOk result (λ end. end ≡ end_in text.now) }
{
    if is_word(text, b"return") {
        return Ok(Some(End::Return));
    }
    if is_word(text, b"unfinished") {
        return Ok(Some(End::Unfinished));
    }
    if let Some(code) = behind(b"exit ", text) {
        return Ok(exit_code(code).map(End::Exit));
    }
    if let Some(rest) = behind(b"unsupported ", text) {
        return unsupported(alloc, rest);
    }
    named_end(alloc, text)
}

#[tactic(auto, unfolding(crate::specs::Parsing::node_line_in))]
fn node_line(text: &[u8]) -> Option<Line>
    ensures { result ≡ node_line_in text.now }
{
    let (id, rest) = leading(text)?;
    let (option, rest) = leading(rest)?;
    let (low, rest) = leading(rest)?;
    let high = number(rest)?;
    if option <= u32::MAX as u64 {
        let option = option as u32;
        let node = Node { option, low, high };
        Some(Line::Numbered { id, node })
    } else {
        None
    }
}

#[tactic(auto, unfolding(crate::specs::Parsing::piece_in))]
fn piece_line(alloc: Global, stream: Stream, text: &[u8]) -> Result<Option<Line>, AllocError>
    ensures { IfOk result (λ line. line ≡ piece_in stream text.now) }
{
    let Some((node, rest)) = root(text) else {
        return Ok(None);
    };
    let Some(text) = text_in(alloc, TEXT, rest)? else {
        return Ok(None);
    };
    Ok(Some(Line::Printed(Piece { node, stream, text })))
}

#[tactic(auto, unfolding(crate::specs::Parsing::end_line_in))]
fn end_line(alloc: Global, text: &[u8]) -> Result<Option<Line>, AllocError>
    ensures { IfOk result (λ line. line ≡ end_line_in text.now) }
{
    let Some((node, rest)) = root(text) else {
        return Ok(None);
    };
    let Some(end) = end_in(alloc, rest)? else {
        return Ok(None);
    };
    Ok(Some(Line::Ended(EndLine { node, end })))
}

#[tactic(auto, unfolding(crate::specs::Parsing::attempts_in))]
fn attempts_line(text: &[u8]) -> Option<Line>
    ensures { result ≡ attempts_in text.now }
{
    let (node, rest) = root(text)?;
    let attempts = number(rest)?;
    Some(Line::Spent(AttemptLine { node, attempts }))
}

#[tactic(auto, unfolding(crate::specs::Parsing::head_in))]
fn head_line(text: &[u8]) -> Option<Line>
    ensures { result ≡ head_in text.now }
{
    let version = number_below(3, text)?;
    if version >= 1 {
        let version = version as u8;
        Some(Line::Head { version })
    } else {
        None
    }
}

#[tactic(auto, unfolding(crate::specs::Parsing::count_in))]
fn count_line(text: &[u8]) -> Option<Line>
    ensures { result ≡ count_in text.now }
{
    let options = number_below(65, text)?;
    Some(Line::Count { options })
}

#[tactic(auto, unfolding(crate::specs::Parsing::limit_in))]
fn limit_line(text: &[u8]) -> Option<Line>
    ensures { result ≡ limit_in text.now }
{
    let limit = number_below(1_000_000_001, text)?;
    if limit >= 1 {
        Some(Line::Limit(limit))
    } else {
        None
    }
}

#[tactic(auto, unfolding(crate::specs::Parsing::rounds_in))]
fn rounds_line(text: &[u8]) -> Option<Line>
    ensures { result ≡ rounds_in text.now }
{
    let rounds = wide_number(text)?;
    Some(Line::Rounds(rounds))
}

#[tactic(auto, unfolding(crate::specs::Parsing::name_in))]
fn name_line(alloc: Global, text: &[u8]) -> Result<Option<Line>, AllocError>
    ensures { IfOk result (λ line. line ≡ name_in text.now) }
{
    if is_name(text) {
        Ok(Some(Line::Named(Name::of(alloc, text)?)))
    } else {
        Ok(None)
    }
}

#[tactic(auto, unfolding(crate::specs::Parsing::setting_in))]
fn setting_line(alloc: Global, text: &[u8]) -> Result<Option<Line>, AllocError>
    ensures { IfOk result (λ line. line ≡ setting_in text.now) }
{
    if let Some(name) = behind(b"option ", text) {
        return name_line(alloc, name);
    }
    if let Some(limit) = behind(b"limit ", text) {
        return Ok(limit_line(limit));
    }
    if let Some(rounds) = behind(b"rounds ", text) {
        return Ok(rounds_line(rounds));
    }
    Ok(None)
}

#[tactic(auto, unfolding(crate::specs::Parsing::front_in))]
fn front_line(alloc: Global, text: &[u8]) -> Result<Option<Line>, AllocError>
    ensures { IfOk result (λ line. line ≡ front_in text.now) }
{
    if let Some(version) = behind(b"varexj report ", text) {
        return Ok(head_line(version));
    }
    if let Some(options) = behind(b"options ", text) {
        return Ok(count_line(options));
    }
    setting_line(alloc, text)
}

#[tactic(auto, unfolding(crate::specs::Parsing::last_in))]
fn last_line(alloc: Global, text: &[u8]) -> Result<Option<Line>, AllocError>
    ensures { IfOk result (λ line. line ≡ last_in text.now) }
{
    if let Some(end) = behind(b"end ", text) {
        return end_line(alloc, end);
    }
    if let Some(attempts) = behind(b"attempts ", text) {
        return Ok(attempts_line(attempts));
    }
    if is_word(text, b"done") {
        return Ok(Some(Line::Done));
    }
    front_line(alloc, text)
}

#[tactic(auto, unfolding(crate::specs::Parsing::printed_in))]
fn printed_line(alloc: Global, text: &[u8]) -> Result<Option<Line>, AllocError>
    ensures { IfOk result (λ line. line ≡ printed_in text.now) }
{
    if let Some(piece) = behind(b"out ", text) {
        return piece_line(alloc, Stream::Out, piece);
    }
    if let Some(piece) = behind(b"err ", text) {
        return piece_line(alloc, Stream::Err, piece);
    }
    last_line(alloc, text)
}

#[tactic(auto, unfolding(crate::specs::Parsing::line_in))]
fn any_line(alloc: Global, text: &[u8]) -> Result<Option<Line>, AllocError>
    ensures { IfOk result (λ line. line ≡ line_in text.now) }
{
    match behind(b"node ", text) {
        Some(node) => Ok(node_line(node)),
        None => printed_line(alloc, text),
    }
}

/// The line that some bytes spell, if they spell one.
pub fn line_in(alloc: Global, text: &[u8]) -> Result<Option<Line>, AllocError>
    ensures value { IfOk result (λ line. line ≡ line_in text.now) }
    // What is read is spelled so, and lawful by itself.
    ensures spelled { IfOk result (λ line. IfSome line (IsSpelled text.now)) }
    // What is spelled so is read, unless memory runs out.
    ensures only { IfOk result (IsOnly text.now) }
{
    let line = any_line(alloc, text)?;
    Ok(line)
}
