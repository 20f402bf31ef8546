//! The pieces and ends of a report as a person is shown them.

ghost use Rattle.std.specs.Prelude.{◌≡◌, ◌++◌, IfOk, OnOk};
ghost use Rattle.vx_picture.specs.Subjects.{end_subject, end_subjects, is_return, numbered, piece_subject, same, subject_of_piece, subjects};

use crate::title::{put_end_title, put_piece_title};
use std::alloc::{AllocError, Global};
use vx_report::{EndLine, Piece, Report};
use vx_value::{End, Name};

/// A piece or an end of a report.
#[derive(Debug, Drop)]
pub struct Subject {
    /// Whether it is a piece, and not an end.
    pub piece: bool,
    /// Its number among the pieces, or among the ends, from 1 on.
    pub index: u64,
    /// The node of its configurations.
    pub node: u64,
    /// What a person is shown of it: `out` or `err`, its number, how many bytes its text has, and its text to the first byte 10,
    /// cut behind 60 bytes; or `end` and its words.
    pub title: Name,
}

fn is_return(end: &End) -> bool
    ensures { result ≡ is_return end.now }
{
    match end {
        End::Return => true,
        _ => false,
    }
}

fn same(one: bool, other: bool) -> bool
    ensures { result ≡ same one other }
{
    if one { other } else { !other }
}

/// Puts an end with its number, where it is `return` or where it isn't.
fn push_end(
    alloc: Global,
    found: &mut Vec<Subject>,
    returns: bool,
    index: u64,
    line: &EndLine,
) -> Result<(), AllocError>
    ensures { OnOk result (found.new.items ≡ found.old.items ++ end_subject returns index line.now) }
{
    if !same(returns, is_return(&line.end)) {
        return Ok(());
    }
    let mut title = Vec::new(alloc);
    put_end_title(&mut title, &line.end)?;
    found.push(Subject {
        piece: false,
        index,
        node: line.node,
        title: Name::from_vec(title),
    })?;
    Ok(())
}

/// Puts a piece with its number.
fn push_piece(
    alloc: Global,
    found: &mut Vec<Subject>,
    index: u64,
    piece: &Piece,
) -> Result<(), AllocError>
    ensures { OnOk result (found.new.items ≡ found.old.items ++ piece_subject index piece.now) }
{
    let mut title = Vec::new(alloc);
    put_piece_title(&mut title, index, piece)?;
    found.push(Subject {
        piece: true,
        index,
        node: piece.node,
        title: Name::from_vec(title),
    })?;
    Ok(())
}

/// Puts `return`, or the other ends.
fn push_ends(
    alloc: Global,
    found: &mut Vec<Subject>,
    returns: bool,
    ends: &[EndLine],
) -> Result<(), AllocError>
    ensures { OnOk result (found.new.items ≡ found.old.items ++ numbered (end_subject returns) 1 ends.now) }
{
    for (place, line) in ends.iter().enumerate() {
        push_end(alloc, found, returns, place as u64 + 1, line)?;
    }
    Ok(())
}

/// Puts the pieces.
fn push_pieces(alloc: Global, found: &mut Vec<Subject>, pieces: &[Piece]) -> Result<(), AllocError>
    ensures { OnOk result (found.new.items ≡ found.old.items ++ numbered piece_subject 1 pieces.now) }
{
    for (place, piece) in pieces.iter().enumerate() {
        push_piece(alloc, found, place as u64 + 1, piece)?;
    }
    Ok(())
}

/// The ends of a report that are not `return`, then `return`, each with its number.
pub fn end_subjects(alloc: Global, report: &Report) -> Result<Vec<Subject>, AllocError>
    ensures { IfOk result (λ found. found.items ≡ end_subjects report.now) }
{
    let mut found = Vec::new(alloc);
    push_ends(alloc, &mut found, false, report.ends.as_slice())?;
    push_ends(alloc, &mut found, true, report.ends.as_slice())?;
    Ok(found)
}

/// The piece with a number, from 1 on; none where there is no such piece.
pub fn subject_of_piece(
    alloc: Global,
    report: &Report,
    index: u64,
) -> Result<Vec<Subject>, AllocError>
    ensures { IfOk result (λ found. found.items ≡ subject_of_piece report.now index) }
{
    let mut found = Vec::new(alloc);
    let Some(place) = index.checked_sub(1) else {
        return Ok(found);
    };
    let Some(piece) = report.pieces.get(place as usize) else {
        return Ok(found);
    };
    push_piece(alloc, &mut found, index, piece)?;
    Ok(found)
}

/// The ends of a report that are not `return`, then `return`, then the pieces, each with its number among its kind.
pub fn subjects(alloc: Global, report: &Report) -> Result<Vec<Subject>, AllocError>
    ensures { IfOk result (λ found. found.items ≡ subjects report.now) }
{
    let mut found = end_subjects(alloc, report)?;
    push_pieces(alloc, &mut found, report.pieces.as_slice())?;
    Ok(found)
}

impl Subject {
    /// The same with a title of its own.
    pub fn copied(&self, alloc: Global) -> Result<Subject, AllocError>
        ensures { IfOk result (λ copy. copy ≡ self.now) }
    {
        let title = Name::of(alloc, self.title.bytes())?;
        Ok(Subject {
            piece: self.piece,
            index: self.index,
            node: self.node,
            title,
        })
    }
}
