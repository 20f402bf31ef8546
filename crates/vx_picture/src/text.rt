//! The text of a picture in the language DOT of Graphviz.

ghost use Rattle.std.specs.Prelude.{◌≡◌, ◌++◌, IfOk, OnOk};
ghost use Rattle.std.specs.List.{flat_map};
ghost use Rattle.vx_picture.specs.Text.{always_text, arrow_text, box_name, box_style, box_text, box_word, edge_text, ellipse_text, is_marked, label_text, picture_text, quoted_byte, style};

use crate::shape::{Edge, Ellipse, Picture};
use crate::subject::Subject;
use std::alloc::{AllocError, Global};
use vx_report::{Report, name_of};
use vx_value::Name;
use vx_words::put_number;

/// Whether a backslash stands before a byte of a label.
fn is_marked(b: u8) -> bool
    ensures { result ≡ is_marked b }
{
    b == b'"' || b == b'\\'
}

/// Puts a byte of a label: behind a backslash where it is a quote or a backslash.
fn put_quoted_byte(out: &mut Vec<u8>, b: u8) -> Result<(), AllocError>
    ensures { OnOk result (out.new.items ≡ out.old.items ++ quoted_byte b) }
{
    if is_marked(b) {
        return out.extend_from_slice(&[b'\\', b]);
    }
    out.extend_from_slice(&[b])
}

/// Puts the bytes of a label.
fn put_quoted(out: &mut Vec<u8>, label: &[u8]) -> Result<(), AllocError>
    ensures { OnOk result (out.new.items ≡ out.old.items ++ flat_map quoted_byte label.now) }
{
    for b in label {
        put_quoted_byte(out, *b)?;
    }
    Ok(())
}

/// Puts a label between quotes.
#[tactic(auto, unfolding(crate::specs::Text::label_text))]
fn put_label(out: &mut Vec<u8>, label: &[u8]) -> Result<(), AllocError>
    ensures { OnOk result (out.new.items ≡ out.old.items ++ label_text label.now) }
{
    out.extend_from_slice(b" [label=\"")?;
    put_quoted(out, label)?;
    out.extend_from_slice(b"\"")
}

/// Puts an ellipse with the name of its option.
fn put_ellipse(out: &mut Vec<u8>, names: &[Name], ellipse: &Ellipse) -> Result<(), AllocError>
    ensures { OnOk result (out.new.items ≡ out.old.items ++ ellipse_text names.now ellipse.now) }
{
    put_number(out, ellipse.number)?;
    put_label(out, name_of(names, ellipse.option))?;
    out.extend_from_slice(b"];\n")
}

/// Puts the ellipses.
fn put_ellipses(out: &mut Vec<u8>, names: &[Name], ellipses: &[Ellipse]) -> Result<(), AllocError>
    ensures { OnOk result (out.new.items ≡ out.old.items ++ flat_map (ellipse_text names.now) ellipses.now) }
{
    for ellipse in ellipses {
        put_ellipse(out, names, ellipse)?;
    }
    Ok(())
}

/// Puts where an edge goes.
fn put_arrow(out: &mut Vec<u8>, to: u64) -> Result<(), AllocError>
    ensures { OnOk result (out.new.items ≡ out.old.items ++ arrow_text to) }
{
    out.extend_from_slice(b" -> ")?;
    put_number(out, to)
}

/// How an edge is drawn: dashed where its option is off.
fn style(high: bool) -> &'static [u8]
    ensures { result.now ≡ style high }
{
    if high { b";\n" } else { b" [style=dashed];\n" }
}

/// Puts an edge.
fn put_edge(out: &mut Vec<u8>, edge: &Edge) -> Result<(), AllocError>
    ensures { OnOk result (out.new.items ≡ out.old.items ++ edge_text edge.now) }
{
    put_number(out, edge.from)?;
    put_arrow(out, edge.to)?;
    out.extend_from_slice(style(edge.high))
}

/// Puts the edges.
fn put_edges(out: &mut Vec<u8>, edges: &[Edge]) -> Result<(), AllocError>
    ensures { OnOk result (out.new.items ≡ out.old.items ++ flat_map edge_text edges.now) }
{
    for edge in edges {
        put_edge(out, edge)?;
    }
    Ok(())
}

/// The word that a box's name begins with.
fn box_word(piece: bool) -> &'static [u8]
    ensures { result.now ≡ box_word piece }
{
    if piece { b"piece" } else { b"end" }
}

/// Puts the name of a box.
fn put_box_name(out: &mut Vec<u8>, subject: &Subject) -> Result<(), AllocError>
    ensures { OnOk result (out.new.items ≡ out.old.items ++ box_name subject.now) }
{
    out.extend_from_slice(box_word(subject.piece))?;
    put_number(out, subject.index)
}

/// Puts how a box is drawn.
#[tactic(auto, unfolding(crate::specs::Text::box_style))]
fn put_box_style(out: &mut Vec<u8>) -> Result<(), AllocError>
    ensures { OnOk result (out.new.items ≡ out.old.items ++ box_style) }
{
    out.extend_from_slice(b", shape=box];\n")
}

/// Puts a box, and the edge from it to its node.
fn put_box(out: &mut Vec<u8>, subject: &Subject) -> Result<(), AllocError>
    ensures { OnOk result (out.new.items ≡ out.old.items ++ box_text subject.now) }
{
    put_box_name(out, subject)?;
    put_label(out, subject.title.bytes())?;
    put_box_style(out)?;
    put_box_name(out, subject)?;
    put_arrow(out, subject.node)?;
    out.extend_from_slice(b";\n")
}

/// Puts the boxes.
fn put_boxes(out: &mut Vec<u8>, boxes: &[Subject]) -> Result<(), AllocError>
    ensures { OnOk result (out.new.items ≡ out.old.items ++ flat_map box_text boxes.now) }
{
    for subject in boxes {
        put_box(out, subject)?;
    }
    Ok(())
}

/// Puts the box of always.
fn put_always(out: &mut Vec<u8>) -> Result<(), AllocError>
    ensures { OnOk result (out.new.items ≡ out.old.items ++ always_text) }
{
    out.extend_from_slice(b"1")?;
    put_label(out, b"always")?;
    put_box_style(out)
}

/// The text of a report's picture in the language DOT of Graphviz: an ellipse for each node with the name of its option, a
/// dashed edge to its low part and a solid one to its high part, a box for always, and a box for each piece and each end, with
/// an edge to its node.
#[tactic(auto, unfolding(crate::specs::Text::picture_text))]
pub fn picture_text(
    alloc: Global,
    report: &Report,
    picture: &Picture,
) -> Result<Vec<u8>, AllocError>
    ensures { IfOk result (λ text. text.items ≡ picture_text report.now.options picture.now) }
{
    let mut out = Vec::new(alloc);
    out.extend_from_slice(b"digraph report {\n")?;
    put_ellipses(
        &mut out,
        report.options.as_slice(),
        picture.ellipses.as_slice(),
    )?;
    put_always(&mut out)?;
    put_edges(&mut out, picture.edges.as_slice())?;
    put_boxes(&mut out, picture.boxes.as_slice())?;
    out.extend_from_slice(b"}\n")?;
    Ok(out)
}
