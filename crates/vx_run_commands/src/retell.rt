//! The commands `replay` and `trace`: read the model, the configuration and the classes with what they say of their sources, link the
//! classes, and run the one configuration.

ghost use Rattle.std.specs.Prelude.{◌≡◌, ◌≤◌, ◌⊎◌, All, Bool, Err, IfErr, IfOk, List, MatchResult, Ok, length, map};
ghost use Rattle.vx_class.specs.File.{Holds};
ghost use Rattle.vx_java.specs.Ids.{HasClassNumbers};
ghost use Rattle.vx_link.specs.CoreFiles.{core_count};
ghost use Rattle.vx_plain_tables.specs.Tables.{IsShort};
ghost use Rattle.vx_plans.specs.Job.{IsNoProgram};
ghost use Rattle.vx_plans.specs.KeepsFiles.{KeepsFiles};
ghost use Rattle.vx_plans.specs.Plan.{Leads, MayGive, MayStop, Plan, done_with};
ghost use Rattle.vx_run_commands.specs.Retell.{IsRetoldOf, allowed_at, read_choice, retell_plan, told_of};
ghost use Rattle.vx_model.specs.Models.{IsModel};
ghost use Rattle.vx_model.specs.declared.model.Model.{Model};

use crate::words::{RetellWords, Retelling};
use std::alloc::{AllocError, Global};
use vx_configuration::{is_allowed, values_of};
use vx_inputs::{Parts, Traced, names_of, parted, program_in, read_any_model, read_folder};
use vx_io::Files;
use vx_lines::LineTable;
use vx_link::Program;
use vx_model::Model;
use vx_plans::Status;
use vx_program_bounds::linked_are_bounded;
use vx_replay::run_text;
use vx_trace::trace_text;
use vx_value::Name;

/// A model, and the values of its options at a configuration that it allows.
#[derive(Drop)]
pub struct Chosen {
    pub model: Model,
    pub values: Vec<bool>,
}

/// The values of the options at the configuration that a word names, or the refusal where the model doesn't allow it.
fn allowed_at(alloc: Global, model: &Model, word: &str) -> Result<Vec<bool>, Status>
    ensures { MatchResult result (λ values. allowed_at model.now word.now ≡ Ok values.items)
        (λ status. (status ≡ Status.NoMemory) ⊎ (allowed_at model.now word.now ≡ Err status)) }
{
    let names = names_of(alloc, model)?;
    let Some(values) = values_of(alloc, names.as_slice(), word.as_bytes())? else {
        return Err(Status::NotAllowed);
    };
    if is_allowed(model, values.as_slice()) {
        Ok(values)
    } else {
        Err(Status::NotAllowed)
    }
}

/// A model with the configuration that a word names.
fn with_choice(alloc: Global, model: Model, word: &str) -> Result<Chosen, Status>
    ensures { MatchResult result (λ chosen. (chosen.model ≡ model) × (allowed_at model word.now ≡ Ok chosen.values.items))
        (λ status. (status ≡ Status.NoMemory) ⊎ (allowed_at model word.now ≡ Err status)) }
{
    let values = allowed_at(alloc, &model, word)?;
    Ok(Chosen { model, values })
}

/// Reads a model, and the configuration that a word names.
fn read_choice<F: Files>(
    alloc: Global,
    files: &mut F,
    path: &str,
    word: &str,
) -> Result<Chosen, Status>
    ensures ok { IfOk result (λ chosen. (next : Model → List Bool → Plan) →
        Leads (F.seen files.old).held (read_choice path.now word.now next) (next chosen.model chosen.values.items)) }
    ensures lawful { IfOk result (λ chosen. IsModel chosen.model) }
    ensures err { IfErr result (λ status. (next : Model → List Bool → Plan) →
        MayStop (F.seen files.old) (F.seen files.new) (read_choice path.now word.now next) status) }
    ensures keeps { KeepsFiles (F.seen files.old) (F.seen files.new) }
{
    let model = read_any_model(alloc, files, path)?;
    with_choice(alloc, model, word)
}

/// What is told of the run of a configuration of a program, whose first classes have these line tables and source files. The only refusal
/// is want of memory.
fn told_of(
    alloc: Global,
    words: RetellWords<'_>,
    program: &Program,
    tables: &[LineTable],
    files: &[Option<Name>],
    values: &[bool],
) -> Result<Vec<u8>, AllocError>
    requires classes { HasClassNumbers program.now }
    requires core { core_count ≤ length program.now.classes }
    requires short { IsShort program.now }
    ensures { IfOk result (λ text. text.items ≡ told_of words.entry.retelling words.entry.limit values.now tables.now files.now program.now) }
{
    match words.retelling {
        Retelling::Replay => run_text(alloc, program, tables, values, words.limit),
        Retelling::Trace => trace_text(alloc, program, tables, files, values, words.limit),
    }
}

/// What is told of the run of a configuration of the program of a folder's class files, or the refusal of their first fault.
fn retold_of(
    alloc: Global,
    words: RetellWords<'_>,
    chosen: &Chosen,
    traced: Vec<Traced>,
) -> Result<Vec<u8>, Status>
    requires few { length traced.items ≤ 1024 }
    requires read { All (λ t. Holds t.class) traced.items }
    requires model { IsModel chosen.now.model }
    ensures { MatchResult result (λ text. IsRetoldOf words.entry.retelling words.entry.main.now words.entry.limit chosen.now.model chosen.now.values.items traced.items text.items)
        (IsNoProgram words.entry.main.now chosen.now.model (map (λ t. t.class) traced.items)) }
{
    linked_are_bounded();
    let parts = parted(alloc, traced)?;
    let Parts {
        classes,
        tables,
        files,
    } = parts;
    let program = program_in(alloc, words.main, &chosen.model, classes)?;
    Ok(told_of(
        alloc,
        words,
        &program,
        tables.as_slice(),
        files.as_slice(),
        chosen.values.as_slice(),
    )?)
}

/// The text of `replay` or `trace`.
pub fn retold<F: Files>(
    alloc: Global,
    files: &mut F,
    words: RetellWords<'_>,
) -> Result<Vec<u8>, Status>
    ensures ok { IfOk result (λ text. MayGive (F.seen files.old).held (F.seen files.old).faults (F.seen files.new).faults
        (retell_plan words.entry.retelling words.entry.folder.now words.entry.model.now words.entry.main.now words.entry.limit words.entry.configuration.now) (done_with text.items)) }
    ensures err { IfErr result (λ status. MayStop (F.seen files.old) (F.seen files.new)
        (retell_plan words.entry.retelling words.entry.folder.now words.entry.model.now words.entry.main.now words.entry.limit words.entry.configuration.now) status) }
    ensures keeps { KeepsFiles (F.seen files.old) (F.seen files.new) }
{
    let chosen = read_choice(alloc, files, words.model, words.configuration)?;
    let traced = read_folder(alloc, files, words.folder)?;
    retold_of(alloc, words, &chosen, traced)
}
