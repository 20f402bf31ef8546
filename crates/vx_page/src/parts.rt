//! Fixed parts of a page.

ghost use Rattle.std.specs.Prelude.{◌≡◌, ◌++◌, OnErr, OnOk};
ghost use Rattle.vx_page.specs.Parts.{joined_slices};

use std::alloc::AllocError;
use vx_list::or_cut_back;

/// Puts parts one behind the other. Want of memory leaves the text as it was.
#[tactic(auto, using(std::proofs::lemmas::List::append_assoc, std::proofs::lemmas::List::take_at))]
pub fn put_parts(out: &mut Vec<u8>, parts: &[&[u8]]) -> Result<(), AllocError>
    ensures ok { OnOk result (out.new.items ≡ out.old.items ++ joined_slices parts.now) }
    ensures err { OnErr result (out.new.items ≡ out.old.items) }
{
    let held = out.len();
    for part in parts {
        or_cut_back(out.extend_from_slice(part), out, held)?;
    }
    Ok(())
}
