//! Words of a report, put behind what is written already.

ghost use Rattle.std.specs.Prelude.{◌≡◌, ◌++◌, OnErr, OnOk};
ghost use Rattle.vx_value.specs.Words.{spelled_byte, spelled};

use std::alloc::AllocError;
use vx_list::or_cut_back;
use vx_words::spelled_byte;

fn put_byte(out: &mut Vec<u8>, least: u8, b: u8) -> Result<(), AllocError>
    ensures ok { OnOk result (out.new.items ≡ out.old.items ++ spelled_byte least b) }
    ensures err { OnErr result (out.new.items ≡ out.old.items) }
{
    let mut room = [0; 3];
    out.extend_from_slice(spelled_byte(least, b, &mut room))
}

/// Puts bytes as a text or a word, by the least byte that stands for itself. Want of memory leaves the text as it was.
#[tactic(auto, using(std::proofs::lemmas::List::append_assoc, std::proofs::lemmas::List::take_at))]
pub fn put_spelled(out: &mut Vec<u8>, least: u8, bytes: &[u8]) -> Result<(), AllocError>
    ensures ok { OnOk result (out.new.items ≡ out.old.items ++ spelled least bytes.now) }
    ensures err { OnErr result (out.new.items ≡ out.old.items) }
{
    let held = out.len();
    for b in bytes {
        or_cut_back(put_byte(out, least, *b), out, held)?;
    }
    Ok(())
}
