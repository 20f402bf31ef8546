//! Cutting a model.

ghost use Rattle.std.specs.Prelude.{◌≡◌, ◌⊎◌, ◌++◌, ◌-◌, ◌<◌, ◌≤◌, ◌^◌, true, false, length, nat_lt, IfOk, MatchResult, Ok};
ghost use Rattle.vx_space.specs.Sets.{Extends, IsSet};
ghost use Rattle.vx_model.specs.Models.{HasOptionNames, is_allowed};
ghost use Rattle.vx_cut.specs.Cuts.{ArePut, IsCutText, is_large, most_part_bytes, spelled};
ghost use Rattle.vx_cut.specs.Texts.{part_text, parts_from, parts_of};
ghost use Rattle.vx_cut.specs.declared.cutting.CutFault.TheVariants.{NoMemory, TooLarge};

use crate::parts::terms_of;
use crate::text::put_part;
use std::alloc::{AllocError, Global};
use vx_explain::literal::Term;
use vx_explain::{Literal, rules_are_read_back};
use vx_model::Model;
use vx_space::{Space, SpaceFault};

/// Why a model is not cut.
#[derive(Clone, Copy, Debug)]
pub enum CutFault {
    NoMemory,
    /// A part would have more bytes than a model may have.
    TooLarge,
}

impl From<AllocError> for CutFault {
    ghost use Rattle.std.specs.Prelude.{◌≡◌};
    ghost use Rattle.vx_cut.specs.declared.cutting.CutFault.TheVariants.{NoMemory};

    ghost from_gives = { λ _ e. e ≡ NoMemory };

    fn from(_e: AllocError) -> CutFault {
        CutFault::NoMemory
    }
}

impl From<SpaceFault> for CutFault {
    ghost use Rattle.std.specs.Prelude.{◌≡◌};
    ghost use Rattle.vx_cut.specs.declared.cutting.CutFault.TheVariants.{NoMemory};

    ghost from_gives = { λ _ e. e ≡ NoMemory };

    fn from(_e: SpaceFault) -> CutFault {
        CutFault::NoMemory
    }
}

/// The most bytes of a model, and so of a part.
const MOST_PART_BYTES: usize = 1_048_576;

/// Whether what was put between two lengths of a text is larger than a part may be.
fn is_too_large(before: usize, after: usize) -> bool
    requires { before ≤ after }
    ensures { result ≡ nat_lt most_part_bytes (after - before) }
{
    after - before > MOST_PART_BYTES
}

/// Puts the part of a term, where it isn't too large.
fn put_sized(
    out: &mut Vec<u8>,
    dimacs: bool,
    text: &[u8],
    model: &Model,
    number: usize,
    term: &[Literal],
) -> Result<(), CutFault>
    ensures { let part = part_text dimacs text.now model.now number term.now in
        MatchResult result (λ done. (out.new.items ≡ out.old.items ++ part) × (is_large part ≡ false))
        (λ e. (e ≡ NoMemory) ⊎ ((e ≡ TooLarge) × (is_large part ≡ true))) }
{
    let before = out.len();
    put_part(out, dimacs, text, model, number, term)?;
    if is_too_large(before, out.len()) {
        return Err(CutFault::TooLarge);
    }
    Ok(())
}

/// There are fewer terms than numbers of 64 bits.
fn terms_fit(terms: &[Term])
    ensures { length terms.now < 2 ^ 63 }
{
    let _len = terms.len();
}

/// The parts of terms, one after the other.
fn parts_text(
    alloc: Global,
    dimacs: bool,
    text: &[u8],
    model: &Model,
    terms: &[Term],
) -> Result<Vec<u8>, CutFault>
    ensures { ArePut (parts_from dimacs text.now model.now 1 terms.now) result }
{
    let mut out = Vec::new(alloc);
    for i in 0..terms.len() {
        put_sized(&mut out, dimacs, text, model, i + 1, terms[i].as_slice())?;
    }
    Ok(out)
}

/// The cut of a model's text by chosen options: a part for each of their settings that the model allows.
pub fn cut_text<S: Space>(
    alloc: Global,
    space: &mut S,
    dimacs: bool,
    text: &[u8],
    model: &Model,
    allowed: S::Id,
    chosen: &[bool],
) -> Result<Vec<u8>, CutFault>
    requires spelled { spelled dimacs text.now ≡ Ok model.now }
    requires names { HasOptionNames model.now }
    requires allowed { IsSet (S.sets space.old) allowed (is_allowed model.now) }
    requires options { (S.sets space.old).options ≡ length model.now.options }
    requires chosen { length chosen.now ≡ length model.now.options }
    ensures cut { IfOk result (λ bytes. IsCutText dimacs text.now model.now chosen.now bytes.items) }
    ensures sized { ArePut (parts_of dimacs text.now model.now chosen.now) result }
    ensures extends { Extends (S.sets space.old) (S.sets space.new) }
{
    rules_are_read_back();
    let terms = terms_of(alloc, space, model, allowed, chosen)?;
    terms_fit(terms.as_slice());
    parts_text(alloc, dimacs, text, model, terms.as_slice())
}
