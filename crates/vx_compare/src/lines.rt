//! The first line that differs in two texts.

ghost use Rattle.std.specs.Prelude.{◌≡◌, ◌+◌, ◌++◌, ◌≤◌, [], IfOk, OnOk, drop, is_some, length, true};
ghost use Rattle.std.specs.List.{flat_map, position_or_len};
ghost use Rattle.std.specs.Str.{bytes_eq};
ghost use Rattle.vx_list.specs.Places.{item_or};
ghost use Rattle.vx_words.specs.Lines.{is_line_feed};
ghost use Rattle.vx_report.specs.Projection.{end_at, output_at};
ghost use Rattle.vx_agree.specs.Equal.{are_equal};
ghost use Rattle.vx_count.specs.Output.{output_of};
ghost use Rattle.vx_compare.specs.Lines.{difference_at, front, later_difference, line_difference, line_of, lines_of, mark, marked, marked_on, on_stream, output_difference, piece_marked};

use std::alloc::{AllocError, Global};
use vx_count::output_text;
use vx_report::{Piece, Report};
use vx_space::Config;
use vx_value::{Name, Stream};

/// How many bytes of a line are shown.
const SHOWN: usize = 60;

/// How the outputs of two configurations differ.
#[derive(Drop)]
pub enum Difference {
    /// One of them has no end, or they don't differ.
    Nothing,
    /// Each stream has the same bytes, but in another order of the streams.
    Mixed,
    Line(LineDifference),
}

/// The first line that differs, of the first stream that does.
#[derive(Drop)]
pub struct LineDifference {
    pub stream: Stream,
    /// From 1 on.
    pub number: u64,
    /// The front of the line in the one, with its line feed; empty where there is no such line.
    pub one: Name,
    pub other: Name,
}

/// How many bytes stand before the first line feed.
#[tactic(auto, using(vx_words::proofs::Parts::run_length, vx_words::proofs::Parts::run_within))]
fn line_length(text: &[u8]) -> usize
    ensures value { result ≡ position_or_len is_line_feed text.now }
    ensures within { result ≤ length text.now }
{
    text.iter().take_while(|b| **b != b'\n').count()
}

/// The first line of a text, with its line feed, and what stands behind it.
fn split_line(text: &[u8]) -> (&[u8], &[u8])
    ensures first { result.0.now ≡ item_or (lines_of text.now) 0 [] }
    ensures rest { lines_of result.1.now ≡ drop 1 (lines_of text.now) }
    ensures all { length result.0.now + length result.1.now ≡ length text.now }
{
    text.split_at((line_length(text) + 1).min(text.len()))
}

/// How much of a line is shown.
fn front(line: &[u8]) -> &[u8]
    ensures { result.now ≡ front line.now }
{
    if line.len() <= SHOWN {
        return line;
    }
    line.split_at(SHOWN).0
}

/// Two lines that differ.
fn told(
    alloc: Global,
    stream: Stream,
    number: u64,
    line: &[u8],
    against: &[u8],
) -> Result<LineDifference, AllocError>
    ensures { IfOk result (λ d. d ≡ line_of stream number line.now against.now) }
{
    let one = Name::of(alloc, front(line))?;
    let other = Name::of(alloc, front(against))?;
    Ok(LineDifference {
        stream,
        number,
        one,
        other,
    })
}

/// How many bytes two texts have.
fn left(one: &[u8], other: &[u8]) -> usize
    ensures { result ≡ length one.now + length other.now }
{
    one.len() + other.len()
}

/// Whether two lines have the same bytes.
fn is_same(line: &[u8], against: &[u8]) -> bool
    ensures { result ≡ bytes_eq line.now against.now }
{
    line == against
}

/// The first line that differs.
fn line_difference(
    alloc: Global,
    stream: Stream,
    one: &[u8],
    other: &[u8],
) -> Result<Option<LineDifference>, AllocError>
    ensures { IfOk result (λ d. d ≡ line_difference stream 1 (lines_of one.now) (lines_of other.now)) }
{
    let mut one = one;
    let mut other = other;
    let mut number: u64 = 1;
    while left(one, other) > 0 {
        let (line, rest) = split_line(one);
        let (against, others) = split_line(other);
        if !is_same(line, against) {
            let told = told(alloc, stream, number, line, against)?;
            return Ok(Some(told));
        }
        one = rest;
        other = others;
        number += 1;
    }
    Ok(None)
}

/// What a configuration that has an end prints on a stream.
fn printed(
    alloc: Global,
    report: &Report,
    stream: Stream,
    c: &Config,
) -> Result<Vec<u8>, AllocError>
    requires { is_some (end_at report.now c.now) ≡ true }
    ensures { IfOk result (λ text. text.items ≡ output_of report.now stream c.now) }
{
    match output_text(alloc, report, stream, c)? {
        Some(text) => Ok(text),
        None => Ok(Vec::new(alloc)),
    }
}

/// The first line that differs of what two reports print on a stream, where both have an end.
fn stream_difference(
    alloc: Global,
    stream: Stream,
    one: &Report,
    other: &Report,
    c: &Config,
) -> Result<Option<LineDifference>, AllocError>
    requires one { is_some (end_at one.now c.now) ≡ true }
    requires other { is_some (end_at other.now c.now) ≡ true }
    ensures { IfOk result (λ d. d ≡ on_stream stream one.now other.now c.now) }
{
    let text = printed(alloc, one, stream, c)?;
    let against = printed(alloc, other, stream, c)?;
    line_difference(alloc, stream, text.as_slice(), against.as_slice())
}

/// The byte of a stream.
fn mark(stream: Stream) -> u8
    ensures { result ≡ mark stream }
{
    match stream {
        Stream::Out => 0,
        Stream::Err => 1,
    }
}

/// Puts the bytes of a text, each behind that of its stream.
fn put_marked(bytes: &mut Vec<u8>, stream: Stream, text: &[u8]) -> Result<(), AllocError>
    ensures { OnOk result (bytes.new.items ≡ bytes.old.items ++ flat_map (marked_on stream) text.now) }
{
    for byte in text {
        bytes.push(mark(stream))?;
        bytes.push(*byte)?;
    }
    Ok(())
}

/// Puts the bytes of a piece, if a configuration has it.
fn put_piece(
    bytes: &mut Vec<u8>,
    report: &Report,
    c: &Config,
    piece: &Piece,
) -> Result<(), AllocError>
    ensures { OnOk result (bytes.new.items ≡ bytes.old.items ++ piece_marked report.now c.now piece.now) }
{
    if report.holds(piece.node, c) {
        return put_marked(bytes, piece.stream, piece.text.bytes());
    }
    Ok(())
}

/// What a configuration prints, each byte behind that of its stream.
fn marked(alloc: Global, report: &Report, c: &Config) -> Result<Vec<u8>, AllocError>
    ensures { IfOk result (λ bytes. bytes.items ≡ flat_map marked (output_at report.now c.now)) }
{
    let mut bytes = Vec::new(alloc);
    for piece in report.pieces.as_slice() {
        put_piece(&mut bytes, report, c, piece)?;
    }
    Ok(bytes)
}

/// Whether two reports print the same bytes at a configuration, in one order of the streams.
fn is_same_output(
    alloc: Global,
    one: &Report,
    other: &Report,
    c: &Config,
) -> Result<bool, AllocError>
    ensures { IfOk result (λ same. same ≡ are_equal (output_at one.now c.now) (output_at other.now c.now)) }
{
    let printed = marked(alloc, one, c)?;
    let against = marked(alloc, other, c)?;
    Ok(printed.as_slice() == against.as_slice())
}

/// How the outputs differ where the bytes on the stream for output don't.
fn later_difference(
    alloc: Global,
    one: &Report,
    other: &Report,
    c: &Config,
) -> Result<Difference, AllocError>
    requires one { is_some (end_at one.now c.now) ≡ true }
    requires other { is_some (end_at other.now c.now) ≡ true }
    ensures { IfOk result (λ d. d ≡ later_difference one.now other.now c.now) }
{
    let found = stream_difference(alloc, Stream::Err, one, other, c)?;
    if let Some(line) = found {
        return Ok(Difference::Line(line));
    }
    if is_same_output(alloc, one, other, c)? {
        return Ok(Difference::Nothing);
    }
    Ok(Difference::Mixed)
}

/// How the outputs of two reports differ at a configuration at which both have an end.
fn output_difference(
    alloc: Global,
    one: &Report,
    other: &Report,
    c: &Config,
) -> Result<Difference, AllocError>
    requires one { is_some (end_at one.now c.now) ≡ true }
    requires other { is_some (end_at other.now c.now) ≡ true }
    ensures { IfOk result (λ d. d ≡ output_difference one.now other.now c.now) }
{
    let found = stream_difference(alloc, Stream::Out, one, other, c)?;
    if let Some(line) = found {
        return Ok(Difference::Line(line));
    }
    later_difference(alloc, one, other, c)
}

/// Whether a configuration has an end.
fn has_end(report: &Report, c: &Config) -> bool
    ensures { result ≡ is_some (end_at report.now c.now) }
{
    report.end_of(c).is_some()
}

/// How the outputs of two reports differ at a configuration; not at all where one of them has no end there.
pub fn difference_at(
    alloc: Global,
    one: &Report,
    other: &Report,
    c: &Config,
) -> Result<Difference, AllocError>
    ensures { IfOk result (λ d. d ≡ difference_at one.now other.now c.now) }
{
    if has_end(one, c) && has_end(other, c) {
        return output_difference(alloc, one, other, c);
    }
    Ok(Difference::Nothing)
}
