//! What does not fit of the superclass and the superinterfaces of a class.

ghost use Rattle.std.specs.Option.{option_copied};
ghost use Rattle.std.specs.Prelude.{◌≡◌, ◌++◌, OnErr, OnOk, bytes_eq};
ghost use Rattle.vx_outlines.specs.Refusals.{interface_lines, interfaces_text, named, parent_line, parent_lines, parent_text, word_line};

use crate::outline::Outline;
use std::alloc::AllocError;
use vx_list::or_cut_back;
use vx_report::put_spelled;
use vx_value::Name;
use vx_words::WORD;

/// The superclass of each interface.
const OBJECT: &[u8] = b"java/lang/Object";

/// Whether a class has a name.
pub(crate) fn has_name(class: &Outline, name: &[u8]) -> bool
    ensures { result ≡ bytes_eq class.now.name name.now }
{
    class.name.bytes() == name
}

/// The first class of a name.
pub(crate) fn named<'a>(all: &'a [Outline], name: &[u8]) -> Option<&'a Outline>
    ensures { option_copied result ≡ named all.now name.now }
{
    all.iter().find(|class| has_name(class, name))
}

/// The class of a name among those of the folder, and then among the core classes.
fn named_in_both<'a>(
    classes: &'a [Outline],
    core: &'a [Outline],
    name: &[u8],
) -> Option<&'a Outline>
    ensures { option_copied result ≡ named (classes.now ++ core.now) name.now }
{
    match named(classes, name) {
        Some(class) => Some(class),
        None => named(core, name),
    }
}

/// Puts a line of a word between two texts. Want of memory leaves the text as it was.
#[tactic(auto, unfolding(crate::specs::Refusals::word_line), using(std::proofs::lemmas::List::append_assoc, std::proofs::lemmas::List::take_at))]
pub(crate) fn put_word_line(
    out: &mut Vec<u8>,
    before: &[u8],
    word: &[u8],
    behind: &[u8],
) -> Result<(), AllocError>
    ensures ok { OnOk result (out.new.items ≡ out.old.items ++ word_line before.now word.now behind.now) }
    ensures err { OnErr result (out.new.items ≡ out.old.items) }
{
    let held = out.len();
    out.extend_from_slice(before)?;
    or_cut_back(put_spelled(out, WORD, word), out, held)?;
    or_cut_back(out.extend_from_slice(behind), out, held)?;
    or_cut_back(out.extend_from_slice(b"\n"), out, held)
}

/// Puts what is wrong with a superclass. Want of memory leaves the text as it was.
fn put_parent_line(
    out: &mut Vec<u8>,
    child: &Outline,
    name: &[u8],
    parent: Option<&Outline>,
) -> Result<(), AllocError>
    ensures ok { OnOk result (out.new.items ≡ out.old.items ++ parent_line child.now name.now (option_copied parent.entry)) }
    ensures err { OnErr result (out.new.items ≡ out.old.items) }
{
    let Some(parent) = parent else {
        return put_word_line(
            out,
            b"superclass ",
            name,
            b" is neither in the folder nor a core class",
        );
    };
    if parent.is_interface {
        return put_word_line(out, b"superclass ", name, b" is an interface");
    }
    if child.is_interface && name != OBJECT {
        return put_word_line(
            out,
            b"superclass ",
            name,
            b" of an interface is not java/lang/Object",
        );
    }
    Ok(())
}

/// Puts what is wrong with the superclass of a class, if anything is. Want of memory leaves the text as it was.
fn put_parent(
    out: &mut Vec<u8>,
    classes: &[Outline],
    core: &[Outline],
    child: &Outline,
) -> Result<(), AllocError>
    ensures ok { OnOk result (out.new.items ≡ out.old.items ++ parent_text (classes.now ++ core.now) child.now child.now.parent) }
    ensures err { OnErr result (out.new.items ≡ out.old.items) }
{
    let Some(name) = &child.parent else {
        return Ok(());
    };
    let parent = named_in_both(classes, core, name.bytes());
    put_parent_line(out, child, name.bytes(), parent)
}

/// Puts what is wrong with a superinterface. Want of memory leaves the text as it was.
fn put_interface_line(
    out: &mut Vec<u8>,
    name: &[u8],
    parent: Option<&Outline>,
) -> Result<(), AllocError>
    ensures ok { OnOk result (out.new.items ≡ out.old.items ++ interface_lines name.now (option_copied parent.entry)) }
    ensures err { OnErr result (out.new.items ≡ out.old.items) }
{
    let Some(parent) = parent else {
        return put_word_line(
            out,
            b"superinterface ",
            name,
            b" is neither in the folder nor a core class",
        );
    };
    if parent.is_interface {
        return Ok(());
    }
    put_word_line(out, b"superinterface ", name, b" is a class")
}

/// Puts what is wrong with these superinterfaces. Want of memory leaves the text as it was.
#[tactic(auto, using(std::proofs::lemmas::List::append_assoc, std::proofs::lemmas::List::take_at))]
fn put_interfaces(
    out: &mut Vec<u8>,
    classes: &[Outline],
    core: &[Outline],
    names: &[Name],
) -> Result<(), AllocError>
    ensures ok { OnOk result (out.new.items ≡ out.old.items ++ interfaces_text (classes.now ++ core.now) names.now) }
    ensures err { OnErr result (out.new.items ≡ out.old.items) }
{
    let held = out.len();
    for name in names {
        let parent = named_in_both(classes, core, name.bytes());
        or_cut_back(put_interface_line(out, name.bytes(), parent), out, held)?;
    }
    Ok(())
}

/// Puts what is wrong with the superclass and the superinterfaces of a class. Want of memory leaves the text as it was.
#[tactic(auto, using(std::proofs::lemmas::List::append_assoc, std::proofs::lemmas::List::take_at))]
pub(crate) fn put_parents(
    out: &mut Vec<u8>,
    classes: &[Outline],
    core: &[Outline],
    child: &Outline,
) -> Result<(), AllocError>
    ensures ok { OnOk result (out.new.items ≡ out.old.items ++ parent_lines (classes.now ++ core.now) child.now) }
    ensures err { OnErr result (out.new.items ≡ out.old.items) }
{
    let held = out.len();
    put_parent(out, classes, core, child)?;
    let put = put_interfaces(out, classes, core, child.interfaces.as_slice());
    or_cut_back(put, out, held)
}
