//! A class file that is refused, in words.

ghost use Rattle.std.specs.Prelude.{◌≡◌, ◌++◌, OnErr, OnOk};
ghost use Rattle.vx_refusals.specs.Refusals.{class_text, compiled_text, later_text, major_in, place_text};

use crate::model::put_reason;
use std::alloc::AllocError;
use vx_list::or_cut_back;
use vx_reasons::Form;
use vx_report::put_spelled;
use vx_words::{WORD, put_number};

/// The reason of a class file of a version that is not read.
const VERSION: u8 = 2;

/// The version of Java 8.
const NEWEST: u16 = 52;

/// The major version that bytes give, or 0 where there are too few.
fn major_in(bytes: &[u8]) -> u16
    ensures { result ≡ major_in bytes.now }
{
    match bytes {
        [_, _, _, _, _, _, high, low, ..] => 256 * u16::from(*high) + u16::from(*low),
        _ => 0,
    }
}

/// Puts where a class file fails. Want of memory leaves the text as it was.
#[tactic(auto, unfolding(crate::specs::Refusals::place_text), using(std::proofs::lemmas::List::append_assoc, std::proofs::lemmas::List::take_at))]
fn put_place(out: &mut Vec<u8>, path: &[u8], at: u64) -> Result<(), AllocError>
    ensures ok { OnOk result (out.new.items ≡ out.old.items ++ place_text path.now at) }
    ensures err { OnErr result (out.new.items ≡ out.old.items) }
{
    let held = out.len();
    out.extend_from_slice(b"class file ")?;
    or_cut_back(put_spelled(out, WORD, path), out, held)?;
    or_cut_back(out.extend_from_slice(b" at byte "), out, held)?;
    or_cut_back(put_number(out, at), out, held)?;
    or_cut_back(out.extend_from_slice(b"\n"), out, held)
}

/// Puts how a class is compiled that a Java of this number has compiled. Want of memory leaves the text as it was.
#[tactic(auto, unfolding(crate::specs::Refusals::compiled_text), using(std::proofs::lemmas::List::append_assoc, std::proofs::lemmas::List::take_at))]
fn put_compiled(out: &mut Vec<u8>, java: u16) -> Result<(), AllocError>
    ensures ok { OnOk result (out.new.items ≡ out.old.items ++ compiled_text java) }
    ensures err { OnErr result (out.new.items ≡ out.old.items) }
{
    let held = out.len();
    out.extend_from_slice(b"compiled for Java ")?;
    or_cut_back(put_number(out, java), out, held)?;
    let put = out.extend_from_slice(b": compile with javac --release 8\n");
    or_cut_back(put, out, held)
}

/// Puts how a class of a version is compiled, if a later Java than 8 has compiled it. Want of memory leaves the text as it was.
fn put_later(out: &mut Vec<u8>, major: u16) -> Result<(), AllocError>
    ensures ok { OnOk result (out.new.items ≡ out.old.items ++ later_text major) }
    ensures err { OnErr result (out.new.items ≡ out.old.items) }
{
    if major <= NEWEST {
        return Ok(());
    }
    put_compiled(out, major - 44)
}

/// Puts behind a text why the class file at a path is refused: the position of the first check that fails, the reason and what fails,
/// and for the version of a later Java how it is compiled for Java 8 (JVMS 4.1). `bytes` are those of the file. Want of memory leaves
/// the text as it was.
#[tactic(auto, using(std::proofs::lemmas::List::append_assoc, std::proofs::lemmas::List::take_at))]
pub fn put_class_refusal(
    out: &mut Vec<u8>,
    path: &[u8],
    bytes: &[u8],
    at: u64,
    reason: u8,
) -> Result<(), AllocError>
    ensures ok { OnOk result (out.new.items ≡ out.old.items ++ class_text path.now bytes.now at reason) }
    ensures err { OnErr result (out.new.items ≡ out.old.items) }
{
    let held = out.len();
    put_place(out, path, at)?;
    or_cut_back(put_reason(out, Form::ClassFile, reason), out, held)?;
    if reason != VERSION {
        return Ok(());
    }
    or_cut_back(put_later(out, major_in(bytes)), out, held)
}
