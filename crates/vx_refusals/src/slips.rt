//! What is often written in the place of a model's own words.

ghost use Rattle.std.specs.Prelude.{◌≡◌, ◌++◌, OnErr, OnOk};
ghost use Rattle.vx_words.specs.Lines.{words};
ghost use Rattle.vx_refusals.specs.Slips.{advice, arrows_text, doubled_text, has_minus, has_quote, has_sign, has_word, is_minus, names_text, slips_text, worded_text};

use std::alloc::AllocError;
use vx_list::or_cut_back;
use vx_words::{is_word_byte, next_word};

/// Whether a sign stands somewhere in a line.
fn has_sign(line: &[u8], sign: &[u8]) -> bool
    ensures { result ≡ has_sign sign.now line.now }
{
    let mut rest = line;
    while let [_, behind @ ..] = rest {
        if rest.starts_with(sign) {
            return true;
        }
        rest = behind;
    }
    false
}

/// Whether a text begins with a minus between two bytes of words.
fn is_minus(text: &[u8]) -> bool
    ensures { result ≡ is_minus text.now }
{
    match text {
        [first, minus, last, ..] => is_word_byte(*first) && (*minus == b'-' && is_word_byte(*last)),
        _ => false,
    }
}

/// Whether a minus stands between two bytes of words somewhere in a line.
fn has_minus(line: &[u8]) -> bool
    ensures { result ≡ has_minus line.now }
{
    let mut rest = line;
    while let [_, behind @ ..] = rest {
        if is_minus(rest) {
            return true;
        }
        rest = behind;
    }
    false
}

/// Whether a word is one of the words of a line.
#[tactic(auto, unfolding(crate::specs::Slips::has_word))]
fn has_word(line: &[u8], word: &[u8]) -> bool
    ensures { result ≡ has_word word.now (words line.now) }
{
    let mut rest = line;
    while let Some((first, behind)) = next_word(rest) {
        if first == word {
            return true;
        }
        rest = behind;
    }
    false
}

/// Whether a quote stands somewhere in a line.
#[tactic(auto, unfolding(crate::specs::Slips::has_quote))]
fn has_quote(line: &[u8]) -> bool
    ensures { result ≡ has_quote line.now }
{
    has_sign(line, b"\"") || has_sign(line, b"'")
}

/// Puts an advice, if it was asked for. Want of memory leaves the text as it was.
#[tactic(auto, unfolding(crate::specs::Slips::advice), using(std::proofs::lemmas::List::append_assoc, std::proofs::lemmas::List::take_at))]
fn put_advice(out: &mut Vec<u8>, is_asked: bool, text: &[u8]) -> Result<(), AllocError>
    ensures ok { OnOk result (out.new.items ≡ out.old.items ++ advice is_asked text.now) }
    ensures err { OnErr result (out.new.items ≡ out.old.items) }
{
    if !is_asked {
        return Ok(());
    }
    let held = out.len();
    out.extend_from_slice(b"slip: ")?;
    or_cut_back(out.extend_from_slice(text), out, held)?;
    or_cut_back(out.extend_from_slice(b"\n"), out, held)
}

/// Puts an advice for each operator of a line that is written twice. Want of memory leaves the text as it was.
#[tactic(auto, unfolding(crate::specs::Slips::doubled_text), using(std::proofs::lemmas::List::append_assoc, std::proofs::lemmas::List::take_at))]
fn put_doubled(out: &mut Vec<u8>, line: &[u8]) -> Result<(), AllocError>
    ensures ok { OnOk result (out.new.items ≡ out.old.items ++ doubled_text line.now) }
    ensures err { OnErr result (out.new.items ≡ out.old.items) }
{
    let held = out.len();
    put_advice(out, has_sign(line, b"&&"), b"&& is written &")?;
    let put = put_advice(out, has_sign(line, b"||"), b"|| is written |");
    or_cut_back(put, out, held)
}

/// Puts an advice for each operator of a line that is written as a word. Want of memory leaves the text as it was.
#[tactic(auto, unfolding(crate::specs::Slips::worded_text), using(std::proofs::lemmas::List::append_assoc, std::proofs::lemmas::List::take_at))]
fn put_worded(out: &mut Vec<u8>, line: &[u8]) -> Result<(), AllocError>
    ensures ok { OnOk result (out.new.items ≡ out.old.items ++ worded_text line.now) }
    ensures err { OnErr result (out.new.items ≡ out.old.items) }
{
    let held = out.len();
    put_advice(out, has_word(line, b"and"), b"and is written &")?;
    let put = put_advice(out, has_word(line, b"or"), b"or is written |");
    or_cut_back(put, out, held)?;
    let put = put_advice(out, has_word(line, b"not"), b"not is written !");
    or_cut_back(put, out, held)
}

/// Puts an advice for each arrow of a line that is none of a model. Want of memory leaves the text as it was.
#[tactic(auto, unfolding(crate::specs::Slips::arrows_text), using(std::proofs::lemmas::List::append_assoc, std::proofs::lemmas::List::take_at))]
fn put_arrows(out: &mut Vec<u8>, line: &[u8]) -> Result<(), AllocError>
    ensures ok { OnOk result (out.new.items ≡ out.old.items ++ arrows_text line.now) }
    ensures err { OnErr result (out.new.items ≡ out.old.items) }
{
    let held = out.len();
    put_advice(
        out,
        has_sign(line, b"<->"),
        b"A <-> B is written (A -> B) & (B -> A)",
    )?;
    let put = put_advice(out, has_sign(line, b"=>"), b"=> is written ->");
    or_cut_back(put, out, held)
}

/// Puts an advice for what is no part of a name. Want of memory leaves the text as it was.
#[tactic(auto, unfolding(crate::specs::Slips::names_text), using(std::proofs::lemmas::List::append_assoc, std::proofs::lemmas::List::take_at))]
fn put_names(out: &mut Vec<u8>, line: &[u8]) -> Result<(), AllocError>
    ensures ok { OnOk result (out.new.items ≡ out.old.items ++ names_text line.now) }
    ensures err { OnErr result (out.new.items ≡ out.old.items) }
{
    let held = out.len();
    put_advice(out, has_quote(line), b"names stand without quotes")?;
    let put = put_advice(out, has_minus(line), b"a name has no -; take _");
    or_cut_back(put, out, held)
}

/// Puts an advice for each slip that stands in a line. Want of memory leaves the text as it was.
#[tactic(auto, using(std::proofs::lemmas::List::append_assoc, std::proofs::lemmas::List::take_at))]
pub(crate) fn put_slips(out: &mut Vec<u8>, line: &[u8]) -> Result<(), AllocError>
    ensures ok { OnOk result (out.new.items ≡ out.old.items ++ slips_text line.now) }
    ensures err { OnErr result (out.new.items ≡ out.old.items) }
{
    let held = out.len();
    put_doubled(out, line)?;
    or_cut_back(put_worded(out, line), out, held)?;
    or_cut_back(put_arrows(out, line), out, held)?;
    or_cut_back(put_names(out, line), out, held)
}
