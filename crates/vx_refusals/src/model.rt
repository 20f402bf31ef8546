//! A model that is refused, in words.

ghost use Rattle.std.specs.Prelude.{◌≡◌, ◌++◌, OnErr, OnOk};
ghost use Rattle.vx_words.specs.Lines.{lines};
ghost use Rattle.vx_refusals.specs.Refusals.{line_at, line_text, model_text, reason_text, slips_of};

use crate::slips::put_slips;
use std::alloc::AllocError;
use vx_list::or_cut_back;
use vx_reasons::{Form, sentence};
use vx_report::put_spelled;
use vx_words::{TEXT, next_line, put_number};

/// The line of a number, the first of which is 1. It is empty where there is none.
fn line_at(text: &[u8], number: u64) -> &[u8]
    ensures { result.now ≡ line_at (lines text.now) number }
{
    let mut line: &[u8] = b"";
    let mut rest = text;
    let mut left = number;
    while left > 0 {
        let Some((next, behind)) = next_line(rest) else {
            return b"";
        };
        line = next;
        rest = behind;
        left -= 1;
    }
    line
}

/// Puts a line with its number. Want of memory leaves the text as it was.
#[tactic(auto, unfolding(crate::specs::Refusals::line_text), using(std::proofs::lemmas::List::append_assoc, std::proofs::lemmas::List::take_at))]
fn put_line(out: &mut Vec<u8>, number: u64, line: &[u8]) -> Result<(), AllocError>
    ensures ok { OnOk result (out.new.items ≡ out.old.items ++ line_text number line.now) }
    ensures err { OnErr result (out.new.items ≡ out.old.items) }
{
    let held = out.len();
    out.extend_from_slice(b"line ")?;
    or_cut_back(put_number(out, number), out, held)?;
    or_cut_back(out.extend_from_slice(b": "), out, held)?;
    or_cut_back(put_spelled(out, TEXT, line), out, held)?;
    or_cut_back(out.extend_from_slice(b"\n"), out, held)
}

/// Puts a reason with its sentence. Want of memory leaves the text as it was.
#[tactic(auto, unfolding(crate::specs::Refusals::reason_text), using(std::proofs::lemmas::List::append_assoc, std::proofs::lemmas::List::take_at))]
pub(crate) fn put_reason(out: &mut Vec<u8>, form: Form, reason: u8) -> Result<(), AllocError>
    ensures ok { OnOk result (out.new.items ≡ out.old.items ++ reason_text form reason) }
    ensures err { OnErr result (out.new.items ≡ out.old.items) }
{
    let held = out.len();
    out.extend_from_slice(b"reason ")?;
    or_cut_back(put_number(out, reason), out, held)?;
    or_cut_back(out.extend_from_slice(b": "), out, held)?;
    or_cut_back(out.extend_from_slice(sentence(form, reason)), out, held)?;
    or_cut_back(out.extend_from_slice(b"\n"), out, held)
}

/// Puts the slips of a line of a model; those of other forms have other words. Want of memory leaves the text as it was.
fn put_slips_of(out: &mut Vec<u8>, form: Form, line: &[u8]) -> Result<(), AllocError>
    ensures ok { OnOk result (out.new.items ≡ out.old.items ++ slips_of form line.now) }
    ensures err { OnErr result (out.new.items ≡ out.old.items) }
{
    match form {
        Form::Model => put_slips(out, line),
        _ => Ok(()),
    }
}

/// Puts behind a text why a model, or a source, is refused by its first bad line: the line with its number, the reason and what fails,
/// and for a model in its own form each slip that stands in the line. Want of memory leaves the text as it was.
#[tactic(auto, using(std::proofs::lemmas::List::append_assoc, std::proofs::lemmas::List::take_at))]
pub fn put_model_refusal(
    out: &mut Vec<u8>,
    form: Form,
    text: &[u8],
    line: u64,
    reason: u8,
) -> Result<(), AllocError>
    ensures ok { OnOk result (out.new.items ≡ out.old.items ++ model_text form text.now line reason) }
    ensures err { OnErr result (out.new.items ≡ out.old.items) }
{
    let held = out.len();
    let bad = line_at(text, line);
    put_line(out, line, bad)?;
    or_cut_back(put_reason(out, form, reason), out, held)?;
    or_cut_back(put_slips_of(out, form, bad), out, held)
}
