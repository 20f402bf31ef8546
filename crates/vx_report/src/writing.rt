//! Reports in their one spelling.

ghost use Rattle.std.specs.Prelude.{◌≡◌, ◌++◌, ◌+◌, ◌<◌, OnErr, OnOk, IfOk, map, length, codes, decimal};
ghost use Rattle.std.specs.Fmt.{signed_decimal};
ghost use Rattle.std.specs.List.{flat_map};
ghost use Rattle.vx_value.specs.Words.{word_of};
ghost use Rattle.vx_report.specs.declared.line.Line.TheVariants.{Head, Count, Named, Limit, Rounds, Numbered, Printed, Ended, Spent};
ghost use Rattle.vx_report.specs.Lines.{whole_line, kind_word, end_words, stream_word};
ghost use Rattle.vx_report.specs.Text.{numbered, front_lines, found_lines, report_text};

use crate::report::{AttemptLine, EndLine, Piece, Report};
use crate::spelling::put_spelled;
use std::alloc::{AllocError, Global};
use vx_bdd_tools::Node;
use vx_list::or_cut_back;
use vx_value::{End, Name, Stream};
use vx_words::{TEXT, WORD, put_number};

#[tactic(auto, unfolding(crate::specs::Lines::kind_word))]
fn kind_of(word: u8) -> &'static [u8]
    ensures { result.now ≡ kind_word word }
{
    match word {
        1 => b"float",
        2 => b"subroutine",
        3 => b"dynamic",
        4 => b"constant",
        5 => b"native",
        6 => b"class",
        7 => b"field",
        8 => b"method",
        _ => b"",
    }
}

/// Puts a text and a word behind it. Want of memory leaves the text as it was.
#[tactic(auto, using(std::proofs::lemmas::List::append_assoc, std::proofs::lemmas::List::take_at))]
fn put_with_word(out: &mut Vec<u8>, front: &[u8], bytes: &[u8]) -> Result<(), AllocError>
    ensures ok { OnOk result (out.new.items ≡ out.old.items ++ (front.now ++ word_of bytes.now)) }
    ensures err { OnErr result (out.new.items ≡ out.old.items) }
{
    let held = out.len();
    out.extend_from_slice(front)?;
    or_cut_back(put_spelled(out, WORD, bytes), out, held)
}

/// Puts two texts. Want of memory leaves the text as it was.
#[tactic(auto, using(std::proofs::lemmas::List::append_assoc, std::proofs::lemmas::List::take_at))]
fn put_both(out: &mut Vec<u8>, front: &[u8], behind: &[u8]) -> Result<(), AllocError>
    ensures ok { OnOk result (out.new.items ≡ out.old.items ++ (front.now ++ behind.now)) }
    ensures err { OnErr result (out.new.items ≡ out.old.items) }
{
    let held = out.len();
    out.extend_from_slice(front)?;
    or_cut_back(out.extend_from_slice(behind), out, held)
}

/// Puts what an unsupported end says. Want of memory leaves the text as it was.
#[tactic(auto, using(std::proofs::lemmas::List::append_assoc, std::proofs::lemmas::List::take_at))]
fn put_unsupported(
    out: &mut Vec<u8>,
    kind: &[u8],
    what: &[u8],
    place: &[u8],
) -> Result<(), AllocError>
    ensures ok { OnOk result (out.new.items ≡ out.old.items ++ (codes "unsupported " ++ kind.now ++ codes " " ++ word_of what.now ++ codes " " ++ word_of place.now)) }
    ensures err { OnErr result (out.new.items ≡ out.old.items) }
{
    let held = out.len();
    put_both(out, b"unsupported ", kind)?;
    or_cut_back(put_with_word(out, b" ", what), out, held)?;
    or_cut_back(put_with_word(out, b" ", place), out, held)?;
    Ok(())
}

/// Puts `exit` and a code. Want of memory leaves the text as it was.
#[tactic(auto, using(std::proofs::lemmas::List::append_assoc, std::proofs::lemmas::List::take_at))]
fn put_exit(out: &mut Vec<u8>, code: i32) -> Result<(), AllocError>
    ensures ok { OnOk result (out.new.items ≡ out.old.items ++ (codes "exit " ++ signed_decimal code)) }
    ensures err { OnErr result (out.new.items ≡ out.old.items) }
{
    let held = out.len();
    out.extend_from_slice(b"exit ")?;
    or_cut_back(put_number(out, code), out, held)
}

/// Puts the words of an end. Want of memory leaves the text as it was.
#[tactic(auto, unfolding(crate::specs::Lines::end_words))]
pub fn put_end(out: &mut Vec<u8>, end: &End) -> Result<(), AllocError>
    ensures ok { OnOk result (out.new.items ≡ out.old.items ++ end_words end.now) }
    ensures err { OnErr result (out.new.items ≡ out.old.items) }
{
    match end {
        End::Return => out.extend_from_slice(b"return"),
        End::Exit(code) => put_exit(out, *code),
        End::Uncaught(class) => put_with_word(out, b"uncaught ", class.bytes()),
        End::Unsupported { word, what, place } => {
            put_unsupported(out, kind_of(*word), what.bytes(), place.bytes())
        }
        End::Illegal(place) => put_with_word(out, b"illegal ", place.bytes()),
        End::Unfinished => out.extend_from_slice(b"unfinished"),
    }
}

#[tactic(auto, using(std::proofs::lemmas::List::append_assoc, std::proofs::lemmas::List::take_at), unfolding(crate::specs::Lines::line_text, crate::specs::Lines::whole_line))]
fn put_option(out: &mut Vec<u8>, name: &Name) -> Result<(), AllocError>
    ensures ok { OnOk result (out.new.items ≡ out.old.items ++ whole_line (Named name.now)) }
    ensures err { OnErr result (out.new.items ≡ out.old.items) }
{
    let held = out.len();
    out.extend_from_slice(b"option ")?;
    or_cut_back(out.extend_from_slice(name.bytes()), out, held)?;
    or_cut_back(out.extend_from_slice(b"\n"), out, held)
}

/// Puts a space and a number. Want of memory leaves the text as it was.
#[tactic(auto, using(std::proofs::lemmas::List::append_assoc, std::proofs::lemmas::List::take_at))]
fn put_next_number(out: &mut Vec<u8>, number: u64) -> Result<(), AllocError>
    ensures ok { OnOk result (out.new.items ≡ out.old.items ++ (codes " " ++ decimal number)) }
    ensures err { OnErr result (out.new.items ≡ out.old.items) }
{
    let held = out.len();
    out.extend_from_slice(b" ")?;
    or_cut_back(put_number(out, number), out, held)
}

#[tactic(auto, using(std::proofs::lemmas::List::append_assoc, std::proofs::lemmas::List::take_at), unfolding(crate::specs::Lines::line_text, crate::specs::Lines::whole_line))]
fn put_node(out: &mut Vec<u8>, id: u64, node: &Node) -> Result<(), AllocError>
    ensures ok { OnOk result (out.new.items ≡ out.old.items ++ whole_line (Numbered id node.now)) }
    ensures err { OnErr result (out.new.items ≡ out.old.items) }
{
    let held = out.len();
    out.extend_from_slice(b"node ")?;
    or_cut_back(put_number(out, id), out, held)?;
    or_cut_back(put_next_number(out, u64::from(node.option)), out, held)?;
    or_cut_back(put_next_number(out, node.low), out, held)?;
    or_cut_back(put_next_number(out, node.high), out, held)?;
    or_cut_back(out.extend_from_slice(b"\n"), out, held)
}

/// The word of a stream.
pub fn word_of_stream(stream: Stream) -> &'static [u8]
    ensures { result.now ≡ stream_word stream }
{
    match stream {
        Stream::Out => b"out",
        Stream::Err => b"err",
    }
}

#[tactic(auto, unfolding(crate::specs::Lines::line_text, crate::specs::Lines::whole_line))]
fn put_piece(out: &mut Vec<u8>, piece: &Piece) -> Result<(), AllocError>
    ensures { OnOk result (out.new.items ≡ out.old.items ++ whole_line (Printed piece.now)) }
{
    out.extend_from_slice(word_of_stream(piece.stream))?;
    out.extend_from_slice(b" ")?;
    put_number(out, piece.node)?;
    out.extend_from_slice(b" ")?;
    put_spelled(out, TEXT, piece.text.bytes())?;
    out.extend_from_slice(b"\n")
}

#[tactic(auto, unfolding(crate::specs::Lines::line_text, crate::specs::Lines::whole_line))]
fn put_end_line(out: &mut Vec<u8>, line: &EndLine) -> Result<(), AllocError>
    ensures { OnOk result (out.new.items ≡ out.old.items ++ whole_line (Ended line.now)) }
{
    out.extend_from_slice(b"end ")?;
    put_number(out, line.node)?;
    out.extend_from_slice(b" ")?;
    put_end(out, &line.end)?;
    out.extend_from_slice(b"\n")
}

#[tactic(auto, unfolding(crate::specs::Lines::line_text, crate::specs::Lines::whole_line))]
fn put_attempts(out: &mut Vec<u8>, line: &AttemptLine) -> Result<(), AllocError>
    ensures { OnOk result (out.new.items ≡ out.old.items ++ whole_line (Spent line.now)) }
{
    out.extend_from_slice(b"attempts ")?;
    put_number(out, line.node)?;
    out.extend_from_slice(b" ")?;
    put_number(out, line.attempts)?;
    out.extend_from_slice(b"\n")
}

#[tactic(auto, unfolding(crate::specs::Lines::line_text, crate::specs::Lines::whole_line))]
fn put_head(out: &mut Vec<u8>, version: u8) -> Result<(), AllocError>
    ensures { OnOk result (out.new.items ≡ out.old.items ++ whole_line (Head version)) }
{
    out.extend_from_slice(b"varexj report ")?;
    put_number(out, version as u64)?;
    out.extend_from_slice(b"\n")?;
    Ok(())
}

/// Puts how many options there are. Want of memory leaves the text as it was.
#[tactic(auto, using(std::proofs::lemmas::List::append_assoc, std::proofs::lemmas::List::take_at), unfolding(crate::specs::Lines::line_text, crate::specs::Lines::whole_line))]
fn put_count(out: &mut Vec<u8>, count: usize) -> Result<(), AllocError>
    ensures ok { OnOk result (out.new.items ≡ out.old.items ++ whole_line (Count count)) }
    ensures err { OnErr result (out.new.items ≡ out.old.items) }
{
    let held = out.len();
    out.extend_from_slice(b"options ")?;
    or_cut_back(put_number(out, count as u64), out, held)?;
    or_cut_back(out.extend_from_slice(b"\n"), out, held)
}

/// Puts how many options there are, and their names. Want of memory leaves the text as it was.
#[tactic(auto, using(std::proofs::lemmas::List::append_assoc, std::proofs::lemmas::List::take_at))]
pub fn put_options(out: &mut Vec<u8>, options: &[Name]) -> Result<(), AllocError>
    ensures ok { OnOk result (out.new.items ≡ out.old.items ++ (whole_line (Count (length options.now)) ++ flat_map whole_line (map Named options.now))) }
    ensures err { OnErr result (out.new.items ≡ out.old.items) }
{
    let held = out.len();
    put_count(out, options.len())?;
    for name in options {
        or_cut_back(put_option(out, name), out, held)?;
    }
    Ok(())
}

/// Puts the limit and the rounds.
#[tactic(auto, unfolding(crate::specs::Lines::line_text, crate::specs::Lines::whole_line))]
fn put_bounds(out: &mut Vec<u8>, limit: u64, rounds: u128) -> Result<(), AllocError>
    ensures { OnOk result (out.new.items ≡ out.old.items ++ (whole_line (Limit limit) ++ whole_line (Rounds rounds))) }
{
    out.extend_from_slice(b"limit ")?;
    put_number(out, limit)?;
    out.extend_from_slice(b"\nrounds ")?;
    put_number(out, rounds)?;
    out.extend_from_slice(b"\n")
}

/// Puts a line for each of some nodes, with their numbers from 2 on. Want of memory leaves the text as it was.
#[tactic(auto, using(std::proofs::lemmas::List::append_assoc, std::proofs::lemmas::List::take_at))]
pub fn put_nodes(out: &mut Vec<u8>, nodes: &[Node]) -> Result<(), AllocError>
    ensures ok { OnOk result (out.new.items ≡ out.old.items ++ flat_map whole_line (numbered 2 nodes.now)) }
    ensures err { OnErr result (out.new.items ≡ out.old.items) }
{
    let held = out.len();
    for (place, node) in nodes.iter().enumerate() {
        or_cut_back(put_node(out, place as u64 + 2, node), out, held)?;
    }
    Ok(())
}

fn put_pieces(out: &mut Vec<u8>, pieces: &[Piece]) -> Result<(), AllocError>
    ensures { OnOk result (out.new.items ≡ out.old.items ++ flat_map whole_line (map Printed pieces.now)) }
{
    for piece in pieces {
        put_piece(out, piece)?;
    }
    Ok(())
}

fn put_ends(out: &mut Vec<u8>, ends: &[EndLine]) -> Result<(), AllocError>
    ensures { OnOk result (out.new.items ≡ out.old.items ++ flat_map whole_line (map Ended ends.now)) }
{
    for line in ends {
        put_end_line(out, line)?;
    }
    Ok(())
}

fn put_all_attempts(out: &mut Vec<u8>, attempts: &[AttemptLine]) -> Result<(), AllocError>
    ensures { OnOk result (out.new.items ≡ out.old.items ++ flat_map whole_line (map Spent attempts.now)) }
{
    for line in attempts {
        put_attempts(out, line)?;
    }
    Ok(())
}

/// Puts what a report says of all configurations: its version, its options, the limit, the rounds.
fn put_front(out: &mut Vec<u8>, report: &Report) -> Result<(), AllocError>
    ensures { OnOk result (out.new.items ≡ out.old.items ++ flat_map whole_line (front_lines report.now)) }
{
    put_head(out, report.version)?;
    put_options(out, report.options.as_slice())?;
    put_bounds(out, report.limit, report.rounds)?;
    Ok(())
}

/// Puts what a report found, each with the node of its configurations.
fn put_found(out: &mut Vec<u8>, report: &Report) -> Result<(), AllocError>
    ensures { OnOk result (out.new.items ≡ out.old.items ++ flat_map whole_line (found_lines report.now)) }
{
    put_pieces(out, report.pieces.as_slice())?;
    put_ends(out, report.ends.as_slice())?;
    put_all_attempts(out, report.attempts.as_slice())?;
    Ok(())
}

/// The text of a report, in its one spelling.
#[tactic(auto, using(crate::proofs::Numbered::whole_text), unfolding(crate::specs::Lines::line_text, crate::specs::Lines::whole_line))]
pub fn write_report(alloc: Global, report: &Report) -> Result<Vec<u8>, AllocError>
    ensures { IfOk result (λ text. text.items ≡ report_text report.now) }
{
    let mut out = Vec::new(alloc);
    put_front(&mut out, report)?;
    put_nodes(&mut out, report.nodes.as_slice())?;
    put_found(&mut out, report)?;
    out.extend_from_slice(b"done\n")?;
    Ok(out)
}
