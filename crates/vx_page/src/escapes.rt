//! Texts in HTML.

ghost use Rattle.std.specs.Prelude.{◌≡◌, ◌++◌, OnErr, OnOk};
ghost use Rattle.vx_page.specs.Escapes.{escaped, escaped_byte};

use std::alloc::AllocError;
use vx_list::or_cut_back;

fn put_byte(out: &mut Vec<u8>, b: u8) -> Result<(), AllocError>
    ensures ok { OnOk result (out.new.items ≡ out.old.items ++ escaped_byte b) }
    ensures err { OnErr result (out.new.items ≡ out.old.items) }
{
    match b {
        b'&' => out.extend_from_slice(b"&amp;"),
        b'<' => out.extend_from_slice(b"&lt;"),
        _ => Ok(out.push(b)?),
    }
}

/// Puts a text so that HTML reads it as the text: `&` and `<` as entities, which say something there, and all else as it is
/// (HTML, 13.1.2, normal elements). Want of memory leaves the text that is put to as it was.
#[tactic(auto, using(std::proofs::lemmas::List::append_assoc, std::proofs::lemmas::List::take_at))]
pub fn put_escaped(out: &mut Vec<u8>, text: &[u8]) -> Result<(), AllocError>
    ensures ok { OnOk result (out.new.items ≡ out.old.items ++ escaped text.now) }
    ensures err { OnErr result (out.new.items ≡ out.old.items) }
{
    let held = out.len();
    for b in text {
        or_cut_back(put_byte(out, *b), out, held)?;
    }
    Ok(())
}
