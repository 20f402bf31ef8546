//! What a report is asked for.

ghost use Rattle.std.specs.Prelude.{◌≡◌, ◌↔◌, false, IfOk, IfSome, IsNone};
ghost use Rattle.vx_interact.specs.Text.{IsInteractionsText};
ghost use Rattle.vx_count.specs.Text.{count_text, list_text};
ghost use Rattle.vx_report_reader.specs.Lawful.{IsLawful};
ghost use Rattle.vx_people.specs.Tellings.{IsCoverText, IsExplanationText, IsPictureText, IsToldText, is_told};

use std::alloc::{AllocError, Global};
use vx_bdd::BddSpace;
use vx_count::{count_report, counts_text, list_report, listed_text};
use vx_cover::{cover, cover_text};
use vx_explain::{Asked, explain, explanation_text};
use vx_interact::{interactions, interactions_text};
use vx_page::write_page;
use vx_picture::{Drawn, picture, picture_text};
use vx_report::Report;
use vx_space::SpaceFault;

/// What a report is asked for: on which options its pieces and ends depend, its picture or a part of it, a cover of it, rules and
/// examples of its pieces and ends or of its ends alone, how many configurations have each of them, the first
/// configurations that have an end, or a page that shows it in a browser.
#[derive(Clone, Copy)]
pub enum Telling {
    Interactions,
    Picture(Drawn),
    Cover,
    Explanations(Asked),
    Counts,
    /// So many of them; 1,000 where nothing is said.
    Listed(Option<u64>),
    Page,
}

/// The text of the interactions of a report.
fn interacting(alloc: Global, report: &Report) -> Result<Vec<u8>, AllocError>
    requires { IsLawful report.now }
    ensures { IfOk result (λ text. IsInteractionsText report.now text.items) }
{
    let entries = interactions(alloc, report)?;
    Ok(interactions_text(alloc, report, entries.as_slice())?)
}

/// The text of the picture of a report, or of a part of it.
fn picturing(alloc: Global, report: &Report, drawn: Drawn) -> Result<Vec<u8>, AllocError>
    requires { IsLawful report.now }
    ensures { IfOk result (λ text. IsPictureText drawn report.now text.items) }
{
    let picture = picture(alloc, report, drawn)?;
    Ok(picture_text(alloc, report, &picture)?)
}

/// The text of a cover of a report.
fn covering(alloc: Global, report: &Report) -> Result<Vec<u8>, SpaceFault>
    requires { IsLawful report.now }
    ensures { IfOk result (λ text. IsCoverText report.now text.items) }
{
    let mut space = BddSpace::new(alloc, report.options.len() as u32)?;
    let tries = cover(alloc, &mut space, report)?;
    Ok(cover_text(alloc, report, tries.as_slice())?)
}

/// The text of the explanations of a report.
fn explaining(alloc: Global, report: &Report, asked: Asked) -> Result<Vec<u8>, SpaceFault>
    requires { IsLawful report.now }
    ensures { IfOk result (λ text. IsExplanationText asked report.now text.items) }
{
    let mut space = BddSpace::new(alloc, report.options.len() as u32)?;
    let explanation = explain(alloc, &mut space, report, asked)?;
    Ok(explanation_text(alloc, report, &explanation)?)
}

/// The text of the counts of a report.
fn counting(alloc: Global, report: &Report) -> Result<Vec<u8>, SpaceFault>
    requires { IsLawful report.now }
    ensures { IfOk result (λ text. text.items ≡ count_text report.now) }
{
    let mut space = BddSpace::new(alloc, report.options.len() as u32)?;
    let counts = count_report(alloc, &mut space, report)?;
    Ok(counts_text(alloc, &counts)?)
}

/// The text of the first n configurations of a report that have an end.
fn listing(alloc: Global, report: &Report, n: u64) -> Result<Vec<u8>, SpaceFault>
    requires { IsLawful report.now }
    ensures { IfOk result (λ text. text.items ≡ list_text n report.now) }
{
    let mut space = BddSpace::new(alloc, report.options.len() as u32)?;
    let listed = list_report(alloc, &mut space, report, n)?;
    Ok(listed_text(alloc, report, &listed)?)
}

/// Whether a report has what it is asked for: all but the picture of a piece that isn't there.
fn is_told(telling: Telling, report: &Report) -> bool
    ensures { result ≡ is_told telling report.now }
{
    match telling {
        Telling::Picture(Drawn::Piece(index)) => 1 <= index && index <= report.pieces.len() as u64,
        _ => true,
    }
}

/// The text of what a report is asked for, if it has that.
fn text_of(alloc: Global, telling: Telling, report: &Report) -> Result<Vec<u8>, SpaceFault>
    requires { IsLawful report.now }
    ensures { IfOk result (λ text. IsToldText telling report.now text.items) }
{
    match telling {
        Telling::Interactions => Ok(interacting(alloc, report)?),
        Telling::Picture(drawn) => Ok(picturing(alloc, report, drawn)?),
        Telling::Cover => covering(alloc, report),
        Telling::Explanations(asked) => explaining(alloc, report, asked),
        Telling::Counts => counting(alloc, report),
        Telling::Listed(n) => listing(alloc, report, n.unwrap_or(1000)),
        Telling::Page => Ok(write_page(alloc, report)?),
    }
}

/// The text of what a report is asked for; none where it has no such thing: the picture of a piece above their number.
pub fn told(alloc: Global, telling: Telling, report: &Report) -> Result<Option<Vec<u8>>, SpaceFault>
    requires { IsLawful report.now }
    ensures none { IfOk result (λ told. IsNone told ↔ (is_told telling report.now ≡ false)) }
    ensures text { IfOk result (λ told. IfSome told (λ text. IsToldText telling report.now text.items)) }
{
    if !is_told(telling, report) {
        return Ok(None);
    }
    let text = text_of(alloc, telling, report)?;
    Ok(Some(text))
}
