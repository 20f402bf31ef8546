//! The picture of a report.

ghost use Rattle.std.specs.Prelude.{◌≡◌, ◌++◌, IfOk, OnOk, map, take};
ghost use Rattle.vx_report_reader.specs.Lawful.{IsLawful};
ghost use Rattle.vx_picture.specs.Marks.{has_mark};
ghost use Rattle.vx_picture.specs.Pictures.{boxes_of, drawn_nodes, edge, edges_of, ellipse, greatest, kept, nodes_of, picture_of};
ghost use Rattle.vx_picture.specs.Subjects.{numbered};
ghost use Rattle.vx_picture.specs.Walks.{Walks};

use crate::marks::{has_mark, marks_of};
use crate::shape::{Drawn, Edge, Ellipse, Picture};
use crate::subject::{Subject, end_subjects, subject_of_piece, subjects};
use std::alloc::{AllocError, Global};
use vx_bdd_tools::Node;
use vx_list::Items;
use vx_report::{EndLine, Piece, Report};

/// The greatest of a number and the nodes of pieces.
fn greatest_piece(number: u64, pieces: &[Piece]) -> u64
    ensures { result ≡ greatest number (map (λ piece. piece.node) pieces.now) }
{
    let mut last = number;
    for piece in pieces {
        last = last.max(piece.node);
    }
    last
}

/// The greatest of a number and the nodes of ends.
fn greatest_end(number: u64, ends: &[EndLine]) -> u64
    ensures { result ≡ greatest number (map (λ line. line.node) ends.now) }
{
    let mut last = number;
    for line in ends {
        last = last.max(line.node);
    }
    last
}

/// The first nodes of a list, or all where there are fewer.
#[tactic(auto, using(std::proofs::lemmas::List::take_all))]
fn first_nodes(nodes: &[Node], count: u64) -> &[Node]
    ensures { result.now ≡ take count nodes.now }
{
    if count < nodes.len() as u64 {
        &nodes[..count as usize]
    } else {
        nodes
    }
}

/// The nodes up to the greatest number that a piece or an end names.
fn drawn_nodes(report: &Report) -> &[Node]
    ensures { result.now ≡ drawn_nodes report.now }
{
    let last = greatest_piece(1, report.pieces.as_slice());
    let last = greatest_end(last, report.ends.as_slice());
    first_nodes(report.nodes.as_slice(), last.saturating_sub(1))
}

/// The nodes among which those of some boxes are.
fn nodes_of(report: &Report, drawn: Drawn) -> &[Node]
    ensures { result.now ≡ nodes_of drawn report.now }
{
    match drawn {
        Drawn::All => drawn_nodes(report),
        Drawn::Ends | Drawn::Piece(_) => report.nodes.as_slice(),
    }
}

/// The boxes that are drawn.
fn boxes_of(alloc: Global, report: &Report, drawn: Drawn) -> Result<Vec<Subject>, AllocError>
    ensures { IfOk result (λ boxes. boxes.items ≡ boxes_of drawn report.now) }
{
    match drawn {
        Drawn::All => subjects(alloc, report),
        Drawn::Ends => end_subjects(alloc, report),
        Drawn::Piece(index) => subject_of_piece(alloc, report, index),
    }
}

/// Puts the ellipse of a node, where the node is marked.
fn push_ellipse(
    drawn: &mut Vec<Ellipse>,
    marks: &[bool],
    number: u64,
    node: &Node,
) -> Result<(), AllocError>
    ensures { OnOk result (drawn.new.items ≡ drawn.old.items ++ kept (has_mark marks.now) ellipse number node.now) }
{
    if has_mark(marks, number) {
        drawn.push(Ellipse {
            number,
            option: node.option,
        })?;
    }
    Ok(())
}

/// The ellipses of the nodes that are marked.
fn ellipses(alloc: Global, nodes: &[Node], marks: &[bool]) -> Result<Vec<Ellipse>, AllocError>
    ensures { IfOk result (λ drawn. drawn.items ≡ numbered (kept (has_mark marks.now) ellipse) 2 nodes.now) }
{
    let mut drawn = Vec::new(alloc);
    for (place, node) in nodes.iter().enumerate() {
        push_ellipse(&mut drawn, marks, place as u64 + 2, node)?;
    }
    Ok(drawn)
}

/// Puts an edge, but for one to never.
fn push_edge(edges: &mut Vec<Edge>, from: u64, high: bool, to: u64) -> Result<(), AllocError>
    ensures { OnOk result (edges.new.items ≡ edges.old.items ++ edge from high to) }
{
    if to == 0 {
        return Ok(());
    }
    edges.push(Edge { from, high, to })?;
    Ok(())
}

/// Puts the edges of a node, where the node is marked.
fn push_edges(
    edges: &mut Vec<Edge>,
    marks: &[bool],
    number: u64,
    node: &Node,
) -> Result<(), AllocError>
    ensures { OnOk result (edges.new.items ≡ edges.old.items ++ kept (has_mark marks.now) edges_of number node.now) }
{
    if !has_mark(marks, number) {
        return Ok(());
    }
    push_edge(edges, number, false, node.low)?;
    push_edge(edges, number, true, node.high)
}

/// The edges of the nodes that are marked.
fn edges(alloc: Global, nodes: &[Node], marks: &[bool]) -> Result<Vec<Edge>, AllocError>
    ensures { IfOk result (λ drawn. drawn.items ≡ numbered (kept (has_mark marks.now) edges_of) 2 nodes.now) }
{
    let mut drawn = Vec::new(alloc);
    for (place, node) in nodes.iter().enumerate() {
        push_edges(&mut drawn, marks, place as u64 + 2, node)?;
    }
    Ok(drawn)
}

/// The picture of a report's diagrams (Bryant 1986), or of those of its ends or of one piece: a box for each piece and each end that is
/// drawn, with its title and its node, an ellipse for each node that the boxes need, with the report's number, and an edge to each part
/// of it that isn't never. A configuration that begins at the node of a box and takes the edge of its value at each ellipse comes to
/// always just where the node holds it. Of a piece that isn't there nothing is drawn.
pub fn picture(alloc: Global, report: &Report, drawn: Drawn) -> Result<Picture, AllocError>
    requires { IsLawful report.now }
    ensures picture { IfOk result (λ picture. picture ≡ picture_of drawn report.now) }
    ensures walks { IfOk result (Walks report.now) }
{
    let nodes = nodes_of(report, drawn);
    let boxes = boxes_of(alloc, report, drawn)?;
    let marks = marks_of(alloc, report, drawn, nodes, boxes.as_slice())?;
    let ellipses = ellipses(alloc, nodes, marks.as_slice())?;
    let edges = edges(alloc, nodes, marks.as_slice())?;
    Ok(Picture {
        ellipses: Items::of(ellipses),
        edges: Items::of(edges),
        boxes: Items::of(boxes),
    })
}
