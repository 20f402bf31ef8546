//! How many classes there are, by their versions.

ghost use Rattle.std.specs.Prelude.{◌≡◌, ◌++◌, ◌==◌, OnErr, OnOk};
ghost use Rattle.vx_refusals.specs.Refusals.{count_of, head_text, version_text, versions_of, versions_text};

use std::alloc::AllocError;
use vx_class::ClassFile;
use vx_list::or_cut_back;
use vx_words::put_number;

/// The major versions of class files that are read (JVMS 4.1).
const VERSIONS: [u16; 8] = [45, 46, 47, 48, 49, 50, 51, 52];

/// Whether a class has a version.
fn is_of(class: &ClassFile, version: u16) -> bool
    ensures { result ≡ (class.now.major == version) }
{
    class.major == version
}

/// How many classes have a version.
fn count_of(classes: &[ClassFile], version: u16) -> usize
    ensures { result ≡ count_of classes.now version }
{
    classes.iter().filter(|class| is_of(class, version)).count()
}

/// Puts a version with the number of its classes, if it has any. Want of memory leaves the text as it was.
#[tactic(auto, unfolding(crate::specs::Refusals::version_text), using(std::proofs::lemmas::List::append_assoc, std::proofs::lemmas::List::take_at))]
fn put_version(out: &mut Vec<u8>, version: u16, count: usize) -> Result<(), AllocError>
    ensures ok { OnOk result (out.new.items ≡ out.old.items ++ version_text version count) }
    ensures err { OnErr result (out.new.items ≡ out.old.items) }
{
    if count == 0 {
        return Ok(());
    }
    let held = out.len();
    out.extend_from_slice(b"version ")?;
    or_cut_back(put_number(out, version), out, held)?;
    or_cut_back(out.extend_from_slice(b" "), out, held)?;
    or_cut_back(put_number(out, count), out, held)?;
    or_cut_back(out.extend_from_slice(b"\n"), out, held)
}

/// Puts these versions, each with the number of its classes. Want of memory leaves the text as it was.
#[tactic(auto, using(std::proofs::lemmas::List::append_assoc, std::proofs::lemmas::List::take_at))]
fn put_each(out: &mut Vec<u8>, classes: &[ClassFile], versions: &[u16]) -> Result<(), AllocError>
    ensures ok { OnOk result (out.new.items ≡ out.old.items ++ versions_of classes.now versions.now) }
    ensures err { OnErr result (out.new.items ≡ out.old.items) }
{
    let held = out.len();
    for version in versions {
        let count = count_of(classes, *version);
        or_cut_back(put_version(out, *version, count), out, held)?;
    }
    Ok(())
}

/// Puts the number of the classes. Want of memory leaves the text as it was.
#[tactic(auto, using(std::proofs::lemmas::List::append_assoc, std::proofs::lemmas::List::take_at))]
fn put_head(out: &mut Vec<u8>, count: usize) -> Result<(), AllocError>
    ensures ok { OnOk result (out.new.items ≡ out.old.items ++ head_text count) }
    ensures err { OnErr result (out.new.items ≡ out.old.items) }
{
    let held = out.len();
    out.extend_from_slice(b"classes ")?;
    or_cut_back(put_number(out, count), out, held)?;
    or_cut_back(out.extend_from_slice(b"\n"), out, held)
}

/// Puts behind a text how many classes there are, and how many of each version that one has, ascending. Want of memory leaves the
/// text as it was.
#[tactic(auto, using(std::proofs::lemmas::List::append_assoc, std::proofs::lemmas::List::take_at))]
pub fn put_versions(out: &mut Vec<u8>, classes: &[ClassFile]) -> Result<(), AllocError>
    ensures ok { OnOk result (out.new.items ≡ out.old.items ++ versions_text classes.now) }
    ensures err { OnErr result (out.new.items ≡ out.old.items) }
{
    let held = out.len();
    put_head(out, classes.len())?;
    or_cut_back(put_each(out, classes, &VERSIONS), out, held)
}
