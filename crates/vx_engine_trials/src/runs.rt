//! Whole runs: the text of a report over the space of masks, and what two reports say of each configuration.

ghost use Rattle.std.specs.Prelude.{◌≡◌, IfOk, length, map, true};
ghost use Rattle.vx_families.specs.Bounds.{IsBounded};
ghost use Rattle.vx_heap.specs.Heap.{has_options};
ghost use Rattle.vx_model.specs.Models.{IsModel};

use crate::cases::Case;
use crate::programs::{Example, linked};
use std::alloc::{AllocError, Global};
use std::process::Abort;
use std::test::Fail;
use vx_engine::run_with;
use vx_list::Items;
use vx_model::{Model, allowed};
use vx_report::{Report, project_text};
use vx_report_reader::read_report;
use vx_reporting::report_findings;
use vx_sched::Picker;
use vx_space::{Config, MaskSpace, Space};
use vx_value::Name;

/// The most attempts that a run may have.
const MOST_ATTEMPTS: u64 = 1_000_000_000;

/// The names of a model's options.
fn names_of(alloc: Global, model: &Model) -> Result<Items<Name>, AllocError>
    ensures { IfOk result (λ names. names ≡ map (λ o. o.name) model.now.options) }
{
    let mut names = Vec::new(alloc);
    for option in model.options.as_slice() {
        names.push(Name::of(alloc, option.name.bytes())?)?;
    }
    Ok(Items::of(names))
}

/// The text of the report of a case over a space.
fn report_in<S: Space, K: Picker>(
    rt: &impl Abort,
    alloc: Global,
    case: &Case,
    example: &Example,
    space: &mut S,
    picker: &mut K,
) -> Result<Vec<u8>, Fail>
    requires bounded { IsBounded example.now.program }
    requires fields { has_options (length example.now.model.options) example.now.program.fields ≡ true }
    requires lawful { IsModel example.now.model }
    requires options { (S.sets space.old).options ≡ length example.now.model.options }
{
    let allowed = allowed(space, &example.model)?;
    assert!(rt; !space.is_never(allowed));
    assert!(rt; 0 < case.limit && case.limit <= MOST_ATTEMPTS);
    let names = names_of(alloc, &example.model)?;
    let findings = run_with(alloc, &example.program, space, allowed, case.limit, picker)?;
    let text = report_findings(alloc, space, case.version, names, case.limit, findings)?;
    Ok(text)
}

/// The text of the report of a case over the space of masks.
pub(crate) fn report_of<K: Picker>(
    rt: &impl Abort,
    alloc: Global,
    case: &Case,
    picker: &mut K,
) -> Result<Vec<u8>, Fail> {
    let example = linked(alloc, case.source, case.model)?;
    let options = example.model.options.len();
    assert!(rt; options <= 6);
    let mut masks = MaskSpace::new(options as u32);
    report_in(rt, alloc, case, &example, &mut masks, picker)
}

/// Whether two reports hold a configuration of four options, and say the same of it.
fn agree_at(
    alloc: Global,
    report: &Report,
    other: &Report,
    number: u32,
) -> Result<bool, AllocError> {
    let config = Config::new(
        alloc,
        &[
            number & 1 != 0,
            number & 2 != 0,
            number & 4 != 0,
            number & 8 != 0,
        ],
    )?;
    let said = project_text(alloc, report, &config)?;
    let expected = project_text(alloc, other, &config)?;
    Ok(said.is_some() && said == expected)
}

/// Whether two reports say the same of each configuration of at most four options.
fn agree_on_all(alloc: Global, report: &Report, other: &Report) -> Result<bool, AllocError> {
    for number in 0..16 {
        if !agree_at(alloc, report, other, number)? {
            return Ok(false);
        }
    }
    Ok(true)
}

/// Whether two texts are reports that say the same of each configuration of at most four options.
pub(crate) fn agree(alloc: Global, text: &[u8], other: &[u8]) -> Result<bool, Fail> {
    let report = read_report(alloc, text)?;
    let other = read_report(alloc, other)?;
    Ok(agree_on_all(alloc, &report, &other)?)
}
