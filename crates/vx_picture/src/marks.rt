//! The nodes to which edges lead from some boxes.

ghost use Rattle.std.specs.Prelude.{◌≡◌, ℕ, ◌+◌, ◌<◌, List, [], ◌∷◌, IfOk, length, map};
ghost use Rattle.vx_picture.specs.Marks.{AreMarks, has_mark};
ghost use Rattle.vx_picture.specs.Pictures.{boxes_of, is_drawn, nodes_of, reached, with_parts};

use crate::shape::Drawn;
use crate::subject::Subject;
use std::alloc::{AllocError, Global};
use vx_bdd_tools::Node;
use vx_report::Report;

/// Whether a number is marked; one past the end isn't.
pub fn has_mark(marks: &[bool], number: u64) -> bool
    ensures { result ≡ has_mark marks.now number }
{
    match marks.get(number as usize) {
        Some(mark) => *mark,
        None => false,
    }
}

/// Marks a number, where there is a place for it.
fn mark(marks: &mut [bool], number: u64)
    ensures { (numbers : List ℕ) → AreMarks marks.old numbers → AreMarks marks.new (number ∷ numbers) }
{
    if marks.len() as u64 <= number {
        return;
    }
    marks[number as usize] = true;
}

/// Marks the nodes of boxes.
fn mark_boxes(marks: &mut [bool], boxes: &[Subject])
    requires { AreMarks marks.old [] }
    ensures { AreMarks marks.new (map (λ box. box.node) boxes.now) }
{
    for subject in boxes {
        mark(marks, subject.node);
    }
}

/// Marks the parts of a node, where it is marked.
fn mark_parts(marks: &mut [bool], number: u64, node: &Node)
    requires { number < length marks.old }
    ensures { (numbers : List ℕ) → AreMarks marks.old numbers → AreMarks marks.new (with_parts number node.now numbers) }
{
    if !has_mark(marks, number) {
        return;
    }
    mark(marks, node.high);
    mark(marks, node.low);
}

/// Marks what edges lead to: the parts of a node stand before it.
fn mark_nodes(marks: &mut [bool], nodes: &[Node])
    requires { length marks.old ≡ length nodes.now + 2 }
    ensures { (numbers : List ℕ) → AreMarks marks.old numbers → AreMarks marks.new (reached numbers 2 nodes.now) }
{
    let mut left = nodes.len();
    while left > 0 {
        left -= 1;
        mark_parts(marks, left as u64 + 2, &nodes[left]);
    }
}

/// For each number of some nodes, from never and always on, whether edges lead to it from boxes.
fn reached_marks(alloc: Global, nodes: &[Node], boxes: &[Subject]) -> Result<Vec<bool>, AllocError>
    ensures length { IfOk result (λ marks. length marks.items ≡ length nodes.now + 2) }
    ensures marks { IfOk result (λ marks. AreMarks marks.items (reached (map (λ box. box.node) boxes.now) 2 nodes.now)) }
{
    let mut marks = vec![in alloc; false; nodes.len() + 2]?;
    mark_boxes(marks.as_mut_slice(), boxes);
    mark_nodes(marks.as_mut_slice(), nodes);
    Ok(marks)
}

/// For each number of some nodes, from never and always on, whether it is drawn with some boxes.
pub fn marks_of(
    alloc: Global,
    report: &Report,
    drawn: Drawn,
    nodes: &[Node],
    boxes: &[Subject],
) -> Result<Vec<bool>, AllocError>
    requires nodes { nodes.now ≡ nodes_of drawn report.now }
    requires boxes { boxes.now ≡ boxes_of drawn report.now }
    ensures { IfOk result (λ marks. (k : ℕ) → k < length nodes.now + 2 → has_mark marks.items k ≡ is_drawn drawn report.now k) }
{
    match drawn {
        Drawn::All => vec![in alloc; true; nodes.len() + 2],
        Drawn::Ends | Drawn::Piece(_) => reached_marks(alloc, nodes, boxes),
    }
}
