//! The command `cut`: reads a model and a report of it, chooses options, and gives the parts of the model by them.

ghost use Rattle.std.specs.Prelude.{◌≡◌, ◌⊎◌, ℕ, List, Some, None, Ok, Err, IfOk, IfErr, IfSome, MatchResult, length, option_map};
ghost use Rattle.std.specs.Str.{bytes_eq};
ghost use Rattle.vx_agree.specs.Options.{are_same_names};
ghost use Rattle.vx_cut.specs.Choices.{chosen_count};
ghost use Rattle.vx_cut.specs.Cuts.{IsCutText};
ghost use Rattle.vx_model.specs.Models.{HasOptionNames, is_allowed};
ghost use Rattle.vx_model.specs.declared.model.Model as model;
ghost use Rattle.vx_plans.specs.Job.{IsModeled, is_dimacs_path, model_of};
ghost use Rattle.vx_plans.specs.KeepsFiles.{KeepsFiles};
ghost use Rattle.vx_plans.specs.Plan.{Leads, MayGive, MayStop, Plan, done_with};
ghost use Rattle.vx_report_reader.specs.Lawful.{IsLawful};
ghost use Rattle.vx_space.specs.Sets.{Extends, IsKnown, IsSet};
ghost use Rattle.vx_cut_command.specs.Cut.{GivesParts, IsChosen, IsOversized, IsUnchosen, Many, cut_plan, named_options, oversized, read_like, read_source, unlike_model};
ghost use Rattle.vx_cut_command.specs.Words.{choice_of};

use crate::words::{Chosen, CutWords};
use std::alloc::Global;
use vx_bdd::BddSpace;
use vx_configuration::values_of;
use vx_cut::{CutFault, choice_of, cut_text};
use vx_inputs::{
    MOST_BYTES, Modeled, allowing_model, is_dimacs, model_of, names_of, read_file, read_report_file,
};
use vx_io::Files;
use vx_model::Model;
use vx_plans::Status;
use vx_report::Report;
use vx_space::Space;
use vx_value::Name;

/// The greatest number of options by which a model is cut.
const MOST_CHOSEN: usize = 16;

/// The room for a part.
const MOST_PART_BYTES: u64 = 1_048_576;

/// The text of a model that allows a configuration, and the model with the set of those that it allows.
#[derive(Drop)]
pub struct Source {
    pub text: Vec<u8>,
    pub modeled: Modeled,
}

/// Reads a model that allows a configuration, and keeps its text.
fn read_source<F: Files>(alloc: Global, files: &mut F, path: &str) -> Result<Source, Status>
    ensures ok { IfOk result (λ source. (next : List ℕ → model.Model → Plan) →
        Leads (F.seen files.old).held (read_source path.now next) (next source.text.items source.modeled.model)) }
    ensures spelled { IfOk result (λ source. model_of path.now source.text.items ≡ Ok source.modeled.model) }
    ensures modeled { IfOk result (λ source. IsModeled source.modeled.model (⟦<BddSpace as Space>⟧.sets source.modeled.space) source.modeled.allowed) }
    ensures err { IfErr result (λ status. (next : List ℕ → model.Model → Plan) →
        MayStop (F.seen files.old) (F.seen files.new) (read_source path.now next) status) }
    ensures keeps { KeepsFiles (F.seen files.old) (F.seen files.new) }
{
    let text = read_file(alloc, files, MOST_BYTES, path, path)?;
    let model = model_of(alloc, path, text.as_slice())?;
    let modeled = allowing_model(alloc, model)?;
    Ok(Source { text, modeled })
}

/// Whether two names are one.
fn is_same_name(one: &Name, other: &Name) -> bool
    ensures { result ≡ bytes_eq one.now other.now }
{
    one.bytes() == other.bytes()
}

/// Whether two lists of names are equal.
fn are_same_names(one: &[Name], other: &[Name]) -> bool
    ensures { result ≡ are_same_names one.now other.now }
{
    let mut left = one;
    let mut right = other;
    while let [name, names @ ..] = left {
        let [first, others @ ..] = right else {
            return false;
        };
        if !is_same_name(name, first) {
            return false;
        }
        left = names;
        right = others;
    }
    right.is_empty()
}

/// A report, where its options have the names of a model's.
fn like(alloc: Global, report: Report, model: &Model) -> Result<Report, Status>
    ensures { MatchResult result (λ same. (same ≡ report) × (unlike_model report model.now ≡ None))
        (λ status. (status ≡ Status.NoMemory) ⊎ (unlike_model report model.now ≡ Some status)) }
{
    let names = names_of(alloc, model)?;
    if are_same_names(report.options.as_slice(), names.as_slice()) {
        Ok(report)
    } else {
        Err(Status::Unlike)
    }
}

/// Reads a report of a model.
fn read_report_of<F: Files>(
    alloc: Global,
    files: &mut F,
    path: &str,
    model: &Model,
) -> Result<Report, Status>
    ensures ok { IfOk result (λ report. (next : Plan) →
        Leads (F.seen files.old).held (read_like (Some path.now) model.now next) next) }
    ensures lawful { IfOk result IsLawful }
    ensures err { IfErr result (λ status. (next : Plan) →
        MayStop (F.seen files.old) (F.seen files.new) (read_like (Some path.now) model.now next) status) }
    ensures keeps { KeepsFiles (F.seen files.old) (F.seen files.new) }
{
    let report = read_report_file(alloc, files, path)?;
    like(alloc, report, model)
}

/// Reads a report of a model, where one is given.
fn read_like<F: Files>(
    alloc: Global,
    files: &mut F,
    path: Option<&str>,
    model: &Model,
) -> Result<Option<Report>, Status>
    ensures ok { IfOk result (λ report. (next : Plan) →
        Leads (F.seen files.old).held (read_like (option_map (λ p. p.now) path.entry) model.now next) next) }
    ensures lawful { IfOk result (λ report. IfSome report IsLawful) }
    ensures err { IfErr result (λ status. (next : Plan) →
        MayStop (F.seen files.old) (F.seen files.new) (read_like (option_map (λ p. p.now) path.entry) model.now next) status) }
    ensures keeps { KeepsFiles (F.seen files.old) (F.seen files.new) }
{
    match path {
        None => Ok(None),
        Some(path) => Ok(Some(read_report_of(alloc, files, path, model)?)),
    }
}

/// How many options are chosen.
fn chosen_count(chosen: &[bool]) -> usize
    ensures { result ≡ chosen_count chosen.now }
{
    chosen.iter().filter(|b| **b).count()
}

/// The options of a model that a word names, or the refusal where it names another one, one twice, or too many.
fn named_options(alloc: Global, model: &Model, word: &str) -> Result<Vec<bool>, Status>
    ensures { MatchResult result (λ chosen. named_options model.now word.now ≡ Ok chosen.items)
        (λ status. (status ≡ Status.NoMemory) ⊎ (named_options model.now word.now ≡ Err status)) }
{
    let names = names_of(alloc, model)?;
    let Some(chosen) = values_of(alloc, names.as_slice(), word.as_bytes())? else {
        return Err(Status::NotAllowed);
    };
    if chosen_count(chosen.as_slice()) > MOST_CHOSEN {
        return Err(Status::NotAllowed);
    }
    Ok(chosen)
}

/// So many options of a model, or the refusal where it has fewer.
fn many_options<S: Space>(
    alloc: Global,
    model: &Model,
    space: &mut S,
    allowed: S::Id,
    count: u32,
    report: &Option<Report>,
) -> Result<Vec<bool>, Status>
    requires known { IsKnown (S.sets space.old) allowed }
    requires options { (S.sets space.old).options ≡ length model.now.options }
    requires report { IfSome report.now IsLawful }
    ensures chosen { MatchResult result (λ chosen. IsChosen (Many count) model.now chosen.items)
        (λ status. (status ≡ Status.NoMemory) ⊎ IsUnchosen (Many count) model.now status) }
    ensures extends { Extends (S.sets space.old) (S.sets space.new) }
{
    match choice_of(alloc, space, allowed, count, report)? {
        Some(chosen) => Ok(chosen),
        None => Err(Status::NotAllowed),
    }
}

/// The options that are chosen, or the refusal.
fn chosen_options<S: Space>(
    alloc: Global,
    model: &Model,
    space: &mut S,
    allowed: S::Id,
    chosen: Chosen<'_>,
    report: &Option<Report>,
) -> Result<Vec<bool>, Status>
    requires known { IsKnown (S.sets space.old) allowed }
    requires options { (S.sets space.old).options ≡ length model.now.options }
    requires report { IfSome report.now IsLawful }
    ensures chosen { MatchResult result (λ options. IsChosen (choice_of chosen.entry) model.now options.items)
        (λ status. (status ≡ Status.NoMemory) ⊎ IsUnchosen (choice_of chosen.entry) model.now status) }
    ensures extends { Extends (S.sets space.old) (S.sets space.new) }
{
    match chosen {
        Chosen::Named(word) => named_options(alloc, model, word),
        Chosen::Many(count) => many_options(alloc, model, space, allowed, count, report),
    }
}

/// The parts of a model by the options that are chosen, or the refusal where one is too large.
fn parts_by<S: Space>(
    alloc: Global,
    path: &str,
    text: &[u8],
    model: &Model,
    space: &mut S,
    allowed: S::Id,
    chosen: &[bool],
) -> Result<Vec<u8>, Status>
    requires spelled { model_of path.now text.now ≡ Ok model.now }
    requires names { HasOptionNames model.now }
    requires allowed { IsSet (S.sets space.old) allowed (is_allowed model.now) }
    requires options { (S.sets space.old).options ≡ length model.now.options }
    requires chosen { length chosen.now ≡ length model.now.options }
    ensures { MatchResult result
        (λ bytes. IsCutText (is_dimacs_path path.now) text.now model.now chosen.now bytes.items × (oversized path.now text.now model.now chosen.now ≡ None))
        (λ status. (status ≡ Status.NoMemory) ⊎ (oversized path.now text.now model.now chosen.now ≡ Some status)) }
{
    match cut_text(alloc, space, is_dimacs(path), text, model, allowed, chosen) {
        Ok(bytes) => Ok(bytes),
        Err(CutFault::NoMemory) => Err(Status::NoMemory),
        Err(CutFault::TooLarge) => {
            let path = Name::of(alloc, path.as_bytes())?;
            Err(Status::TooLarge {
                path,
                room: MOST_PART_BYTES,
            })
        }
    }
}

/// The parts of a model by the options that are chosen, or the refusal.
fn cut_source(
    alloc: Global,
    words: CutWords<'_>,
    source: Source,
    report: &Option<Report>,
) -> Result<Vec<u8>, Status>
    requires spelled { model_of words.model.now source.text.items ≡ Ok source.modeled.model }
    requires modeled { IsModeled source.modeled.model (⟦<BddSpace as Space>⟧.sets source.modeled.space) source.modeled.allowed }
    requires report { IfSome report.now IsLawful }
    ensures { let model = source.modeled.model in let choice = choice_of words.entry.chosen in
        MatchResult result (λ bytes. GivesParts words.entry.model.now source.text.items choice model bytes.items)
        (λ status. (status ≡ Status.NoMemory) ⊎ (IsUnchosen choice model status ⊎ IsOversized words.entry.model.now source.text.items choice model status)) }
{
    let Source { text, modeled } = source;
    let Modeled {
        model,
        mut space,
        allowed,
    } = modeled;
    let chosen = chosen_options(alloc, &model, &mut space, allowed, words.chosen, report)?;
    parts_by(
        alloc,
        words.model,
        text.as_slice(),
        &model,
        &mut space,
        allowed,
        chosen.as_slice(),
    )
}

/// The parts of a model's file.
pub fn cutting<F: Files>(
    alloc: Global,
    files: &mut F,
    words: CutWords<'_>,
) -> Result<Vec<u8>, Status>
    ensures ok { IfOk result (λ text. MayGive (F.seen files.old).held (F.seen files.old).faults (F.seen files.new).faults
        (cut_plan words.entry.model.now (choice_of words.entry.chosen) (option_map (λ p. p.now) words.entry.report)) (done_with text.items)) }
    ensures err { IfErr result (λ status. MayStop (F.seen files.old) (F.seen files.new)
        (cut_plan words.entry.model.now (choice_of words.entry.chosen) (option_map (λ p. p.now) words.entry.report)) status) }
    ensures keeps { KeepsFiles (F.seen files.old) (F.seen files.new) }
{
    let source = read_source(alloc, files, words.model)?;
    let report = read_like(alloc, files, words.report, &source.modeled.model)?;
    cut_source(alloc, words, source, &report)
}
