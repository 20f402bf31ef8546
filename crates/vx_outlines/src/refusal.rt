//! The refusals of linking.

ghost use Rattle.std.specs.Option.{option_copied};
ghost use Rattle.std.specs.Prelude.{◌≡◌, ◌++◌, OnErr, OnOk, bytes_eq, flat_map, map, string_bytes};
ghost use Rattle.vx_outlines.specs.Refusals.{ancestors_text, choice_text, core_line, cycle_of, cycle_text, file_line, files_text, final_of, final_text, flags_text, main_line, main_text, misfits_of, named, names_text, no_main_text, no_option_text, option_named, option_of, parents_text, place_text, refusal_text, superclass_text, twice_text};

use crate::outline::Outline;
use crate::parents::{has_name, named, put_parents, put_word_line};
use std::alloc::AllocError;
use vx_link::LinkFault;
use vx_list::or_cut_back;
use vx_model::{FieldPlace, OptionField};
use vx_value::Name;

/// What was to be linked: the classes of a folder with the paths of their files, the core classes, the options, and the class whose
/// `main` is to run.
#[derive(Clone, Copy)]
pub struct Sought<'a> {
    pub classes: &'a [Outline],
    pub paths: &'a [String],
    pub core: &'a [Outline],
    pub options: &'a [OptionField],
    pub main: &'a [u8],
}

/// Puts the path of a class's file, if the class has a name. Want of memory leaves the text as it was.
fn put_file(out: &mut Vec<u8>, name: &[u8], class: &Outline, path: &str) -> Result<(), AllocError>
    ensures ok { OnOk result (out.new.items ≡ out.old.items ++ file_line name.now (class.now, path.now)) }
    ensures err { OnErr result (out.new.items ≡ out.old.items) }
{
    if !has_name(class, name) {
        return Ok(());
    }
    put_word_line(out, b"file ", path.as_bytes(), b"")
}

/// Puts the paths of the files whose classes have a name. Want of memory leaves the text as it was.
fn put_files(
    out: &mut Vec<u8>,
    name: &[u8],
    classes: &[Outline],
    paths: &[String],
) -> Result<(), AllocError>
    ensures ok { OnOk result (out.new.items ≡ out.old.items ++ files_text name.now classes.now (map string_bytes paths.now)) }
    ensures err { OnErr result (out.new.items ≡ out.old.items) }
{
    let held = out.len();
    let mut rest = classes;
    let mut left = paths;
    while let [class, behind @ ..] = rest {
        let [path, others @ ..] = left else {
            return Ok(());
        };
        or_cut_back(put_file(out, name, class, path.as_str()), out, held)?;
        rest = behind;
        left = others;
    }
    Ok(())
}

/// Puts that a core class has a name, if one has it. Want of memory leaves the text as it was.
fn put_core(out: &mut Vec<u8>, core: &[Outline], name: &[u8]) -> Result<(), AllocError>
    ensures ok { OnOk result (out.new.items ≡ out.old.items ++ core_line core.now name.now) }
    ensures err { OnErr result (out.new.items ≡ out.old.items) }
{
    match named(core, name) {
        Some(_) => put_word_line(out, b"core class ", name, b""),
        None => Ok(()),
    }
}

/// Puts where the classes of a name are. Want of memory leaves the text as it was.
#[tactic(auto, using(std::proofs::lemmas::List::append_assoc, std::proofs::lemmas::List::take_at))]
fn put_twice(out: &mut Vec<u8>, sought: &Sought<'_>, name: &[u8]) -> Result<(), AllocError>
    ensures ok { OnOk result (out.new.items ≡ out.old.items ++ twice_text sought.now.classes.now (map string_bytes sought.now.paths.now) sought.now.core.now name.now) }
    ensures err { OnErr result (out.new.items ≡ out.old.items) }
{
    let held = out.len();
    put_word_line(out, b"class ", name, b" is there twice")?;
    or_cut_back(
        put_files(out, name, sought.classes, sought.paths),
        out,
        held,
    )?;
    or_cut_back(put_core(out, sought.core, name), out, held)
}

/// Puts what is wrong with the parents of the class of a name. Want of memory leaves the text as it was.
fn put_misfits_of(out: &mut Vec<u8>, sought: &Sought<'_>, name: &[u8]) -> Result<(), AllocError>
    ensures ok { OnOk result (out.new.items ≡ out.old.items ++ misfits_of (sought.now.classes.now ++ sought.now.core.now) (named sought.now.classes.now name.now)) }
    ensures err { OnErr result (out.new.items ≡ out.old.items) }
{
    match named(sought.classes, name) {
        Some(child) => put_parents(out, sought.classes, sought.core, child),
        None => Ok(()),
    }
}

/// Puts that a class does not fit its parents, and what is wrong with each. Want of memory leaves the text as it was.
#[tactic(auto, using(std::proofs::lemmas::List::append_assoc, std::proofs::lemmas::List::take_at))]
fn put_misfits(out: &mut Vec<u8>, sought: &Sought<'_>, name: &[u8]) -> Result<(), AllocError>
    ensures ok { OnOk result (out.new.items ≡ out.old.items ++ parents_text sought.now.classes.now sought.now.core.now name.now) }
    ensures err { OnErr result (out.new.items ≡ out.old.items) }
{
    let held = out.len();
    put_word_line(
        out,
        b"class ",
        name,
        b" does not fit its superclass or a superinterface",
    )?;
    or_cut_back(put_misfits_of(out, sought, name), out, held)
}

/// Puts the name of the superclass, if there is one. Want of memory leaves the text as it was.
fn put_superclass(out: &mut Vec<u8>, child: &Outline) -> Result<(), AllocError>
    ensures ok { OnOk result (out.new.items ≡ out.old.items ++ superclass_text child.now.parent) }
    ensures err { OnErr result (out.new.items ≡ out.old.items) }
{
    match &child.parent {
        Some(name) => put_word_line(out, b"superclass ", name.bytes(), b""),
        None => Ok(()),
    }
}

/// Puts a line for each of these names. Want of memory leaves the text as it was.
#[tactic(auto, using(std::proofs::lemmas::List::append_assoc, std::proofs::lemmas::List::take_at))]
fn put_names(out: &mut Vec<u8>, before: &[u8], names: &[Name]) -> Result<(), AllocError>
    ensures ok { OnOk result (out.new.items ≡ out.old.items ++ names_text before.now names.now) }
    ensures err { OnErr result (out.new.items ≡ out.old.items) }
{
    let held = out.len();
    for name in names {
        or_cut_back(put_word_line(out, before, name.bytes(), b""), out, held)?;
    }
    Ok(())
}

/// Puts the superclass of the class of a name. Want of memory leaves the text as it was.
fn put_superclass_of(out: &mut Vec<u8>, classes: &[Outline], name: &[u8]) -> Result<(), AllocError>
    ensures ok { OnOk result (out.new.items ≡ out.old.items ++ final_of (named classes.now name.now)) }
    ensures err { OnErr result (out.new.items ≡ out.old.items) }
{
    match named(classes, name) {
        Some(child) => put_superclass(out, child),
        None => Ok(()),
    }
}

/// Puts the class whose superclass is final. Want of memory leaves the text as it was.
#[tactic(auto, using(std::proofs::lemmas::List::append_assoc, std::proofs::lemmas::List::take_at))]
fn put_final(out: &mut Vec<u8>, classes: &[Outline], name: &[u8]) -> Result<(), AllocError>
    ensures ok { OnOk result (out.new.items ≡ out.old.items ++ final_text classes.now name.now) }
    ensures err { OnErr result (out.new.items ≡ out.old.items) }
{
    let held = out.len();
    put_word_line(out, b"class ", name, b" has a superclass that is final")?;
    or_cut_back(put_superclass_of(out, classes, name), out, held)
}

/// Puts the names of the superclass and the superinterfaces of a class. Want of memory leaves the text as it was.
#[tactic(auto, using(std::proofs::lemmas::List::append_assoc, std::proofs::lemmas::List::take_at))]
fn put_ancestors(out: &mut Vec<u8>, child: &Outline) -> Result<(), AllocError>
    ensures ok { OnOk result (out.new.items ≡ out.old.items ++ ancestors_text child.now) }
    ensures err { OnErr result (out.new.items ≡ out.old.items) }
{
    let held = out.len();
    put_superclass(out, child)?;
    let put = put_names(out, b"superinterface ", child.interfaces.as_slice());
    or_cut_back(put, out, held)
}

/// Puts the parents of the class of a name. Want of memory leaves the text as it was.
fn put_ancestors_of(out: &mut Vec<u8>, classes: &[Outline], name: &[u8]) -> Result<(), AllocError>
    ensures ok { OnOk result (out.new.items ≡ out.old.items ++ cycle_of (named classes.now name.now)) }
    ensures err { OnErr result (out.new.items ≡ out.old.items) }
{
    match named(classes, name) {
        Some(child) => put_ancestors(out, child),
        None => Ok(()),
    }
}

/// Puts the class that is its own ancestor, with its parents. Want of memory leaves the text as it was.
#[tactic(auto, using(std::proofs::lemmas::List::append_assoc, std::proofs::lemmas::List::take_at))]
fn put_cycle(out: &mut Vec<u8>, classes: &[Outline], name: &[u8]) -> Result<(), AllocError>
    ensures ok { OnOk result (out.new.items ≡ out.old.items ++ cycle_text classes.now name.now) }
    ensures err { OnErr result (out.new.items ≡ out.old.items) }
{
    let held = out.len();
    put_word_line(out, b"class ", name, b" is its own ancestor")?;
    or_cut_back(put_ancestors_of(out, classes, name), out, held)
}

/// Puts the name of a class, if it has a `main`. Want of memory leaves the text as it was.
fn put_main(out: &mut Vec<u8>, class: &Outline) -> Result<(), AllocError>
    ensures ok { OnOk result (out.new.items ≡ out.old.items ++ main_line class.now) }
    ensures err { OnErr result (out.new.items ≡ out.old.items) }
{
    if !class.has_main {
        return Ok(());
    }
    put_word_line(out, b"main ", class.name.bytes(), b"")
}

/// Puts the names of the classes that have a `main`. Want of memory leaves the text as it was.
#[tactic(auto, using(std::proofs::lemmas::List::append_assoc, std::proofs::lemmas::List::take_at))]
fn put_mains(out: &mut Vec<u8>, classes: &[Outline]) -> Result<(), AllocError>
    ensures ok { OnOk result (out.new.items ≡ out.old.items ++ flat_map main_line classes.now) }
    ensures err { OnErr result (out.new.items ≡ out.old.items) }
{
    let held = out.len();
    for class in classes {
        or_cut_back(put_main(out, class), out, held)?;
    }
    Ok(())
}

/// Puts why the class of a name has no `main`. Want of memory leaves the text as it was.
fn put_without_main(out: &mut Vec<u8>, classes: &[Outline], name: &[u8]) -> Result<(), AllocError>
    ensures ok { OnOk result (out.new.items ≡ out.old.items ++ main_text classes.now name.now) }
    ensures err { OnErr result (out.new.items ≡ out.old.items) }
{
    match named(classes, name) {
        Some(_) => put_word_line(
            out,
            b"class ",
            name,
            b" has no public static void main(String[]) with code",
        ),
        None => put_word_line(out, b"class ", name, b" is not in the folder"),
    }
}

/// Puts that a class has no `main`, and which ones have. Want of memory leaves the text as it was.
#[tactic(auto, using(std::proofs::lemmas::List::append_assoc, std::proofs::lemmas::List::take_at))]
fn put_no_main(out: &mut Vec<u8>, sought: &Sought<'_>) -> Result<(), AllocError>
    ensures ok { OnOk result (out.new.items ≡ out.old.items ++ no_main_text sought.now.classes.now sought.now.main.now) }
    ensures err { OnErr result (out.new.items ≡ out.old.items) }
{
    let held = out.len();
    put_without_main(out, sought.classes, sought.main)?;
    or_cut_back(put_mains(out, sought.classes), out, held)
}

/// Puts the fields of a class that an option can have. Want of memory leaves the text as it was.
#[tactic(auto, using(std::proofs::lemmas::List::append_assoc, std::proofs::lemmas::List::take_at))]
fn put_flags(out: &mut Vec<u8>, name: &[u8], class: &Outline) -> Result<(), AllocError>
    ensures ok { OnOk result (out.new.items ≡ out.old.items ++ flags_text name.now class.now) }
    ensures err { OnErr result (out.new.items ≡ out.old.items) }
{
    let held = out.len();
    put_word_line(
        out,
        b"class ",
        name,
        b" has these static fields of type boolean",
    )?;
    let put = put_names(out, b"field ", class.flags.as_slice());
    or_cut_back(put, out, held)
}

/// Puts the fields that an option can have in the class of a name. Want of memory leaves the text as it was.
fn put_choice(out: &mut Vec<u8>, classes: &[Outline], name: &[u8]) -> Result<(), AllocError>
    ensures ok { OnOk result (out.new.items ≡ out.old.items ++ choice_text classes.now name.now) }
    ensures err { OnErr result (out.new.items ≡ out.old.items) }
{
    match named(classes, name) {
        Some(class) => put_flags(out, name, class),
        None => put_word_line(out, b"class ", name, b" is not in the folder"),
    }
}

/// Puts the field that an option was to have, and those that it can have in that class. Want of memory leaves the text as it was.
#[tactic(auto, using(std::proofs::lemmas::List::append_assoc, std::proofs::lemmas::List::take_at))]
fn put_place(
    out: &mut Vec<u8>,
    classes: &[Outline],
    place: &Option<FieldPlace>,
) -> Result<(), AllocError>
    ensures ok { OnOk result (out.new.items ≡ out.old.items ++ place_text classes.now place.now) }
    ensures err { OnErr result (out.new.items ≡ out.old.items) }
{
    let Some(place) = place else {
        return Ok(());
    };
    let held = out.len();
    put_word_line(out, b"field ", place.field.bytes(), b" is not there")?;
    or_cut_back(put_choice(out, classes, place.class.bytes()), out, held)
}

/// Whether an option has a name.
fn is_option(option: &OptionField, name: &[u8]) -> bool
    ensures { result ≡ bytes_eq option.now.name name.now }
{
    option.name.bytes() == name
}

/// The option of a name.
fn option_named<'a>(options: &'a [OptionField], name: &[u8]) -> Option<&'a OptionField>
    ensures { option_copied result ≡ option_named options.now name.now }
{
    options.iter().find(|option| is_option(option, name))
}

/// Puts the field of the option of a name. Want of memory leaves the text as it was.
fn put_place_of(out: &mut Vec<u8>, sought: &Sought<'_>, name: &[u8]) -> Result<(), AllocError>
    ensures ok { OnOk result (out.new.items ≡ out.old.items ++ option_of sought.now.classes.now (option_named sought.now.options.now name.now)) }
    ensures err { OnErr result (out.new.items ≡ out.old.items) }
{
    match option_named(sought.options, name) {
        Some(option) => put_place(out, sought.classes, &option.place),
        None => Ok(()),
    }
}

/// Puts an option whose field is not there. Want of memory leaves the text as it was.
#[tactic(auto, using(std::proofs::lemmas::List::append_assoc, std::proofs::lemmas::List::take_at))]
fn put_no_option(out: &mut Vec<u8>, sought: &Sought<'_>, name: &[u8]) -> Result<(), AllocError>
    ensures ok { OnOk result (out.new.items ≡ out.old.items ++ no_option_text sought.now.classes.now sought.now.options.now name.now) }
    ensures err { OnErr result (out.new.items ≡ out.old.items) }
{
    let held = out.len();
    put_word_line(
        out,
        b"option ",
        name,
        b" has a field that is no static one of type boolean",
    )?;
    or_cut_back(put_place_of(out, sought, name), out, held)
}

/// Puts behind a text why classes do not link: for a class that is there twice the paths of its files; for one that does not fit its
/// superclass or a superinterface what is wrong with each of them; for a class without a `main` those that have one; for an option
/// the fields that it can have in the class. Nothing is put for want of memory. Where memory is wanting here, the text is left as it was.
pub fn put_link_refusal(
    out: &mut Vec<u8>,
    sought: &Sought<'_>,
    fault: &LinkFault,
) -> Result<(), AllocError>
    ensures ok { OnOk result (out.new.items ≡ out.old.items ++ refusal_text sought.now.classes.now (map string_bytes sought.now.paths.now) sought.now.core.now sought.now.options.now sought.now.main.now fault.now) }
    ensures err { OnErr result (out.new.items ≡ out.old.items) }
{
    match fault {
        LinkFault::NoMemory => Ok(()),
        LinkFault::Twice { class } => put_twice(out, sought, class.bytes()),
        LinkFault::NoSuper { class } => put_misfits(out, sought, class.bytes()),
        LinkFault::FinalSuper { class } => put_final(out, sought.classes, class.bytes()),
        LinkFault::Cycle { class } => put_cycle(out, sought.classes, class.bytes()),
        LinkFault::NoOption { option } => put_no_option(out, sought, option.bytes()),
        LinkFault::NoMain => put_no_main(out, sought),
    }
}
