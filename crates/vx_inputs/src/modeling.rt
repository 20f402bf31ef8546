//! What `run` takes from its model: the model itself, and the set of configurations that it allows.

ghost use Rattle.std.specs.Prelude.{◌≡◌, ◌≢◌, true, false, IfOk, IfErr, MatchResult, Ok, Err, ◌⊎◌, length};
ghost use Rattle.vx_model.specs.Answers.{Answers};
ghost use Rattle.vx_model.specs.Models.{HasOptionNames, IsModel, is_allowed};
ghost use Rattle.vx_model.specs.declared.model.Model.{Model};
ghost use Rattle.vx_space.specs.Sets.{IsSet};
ghost use Rattle.vx_plans.specs.Job.{IsModeled, model_of, spelled_model};
ghost use Rattle.vx_plans.specs.KeepsFiles.{KeepsFiles};
ghost use Rattle.vx_plans.specs.Plan.{AllowsNone, AllowsSome, Leads, MayStop, Plan};
ghost use Rattle.vx_inputs.specs.ModelFile.{read_model};
ghost use Rattle.vx_inputs.specs.ModelFile.{read_any_model};

use crate::job::is_dimacs;
use crate::reading::{MOST_BYTES, read_file};
use std::alloc::Global;
use vx_bdd::BddSpace;
use vx_dimacs::read_dimacs;
use vx_io::Files;
use vx_model::{Model, ModelFault, allowed, read_model};
use vx_plans::Status;
use vx_space::Space;

/// A model that allows a configuration, with a space of its options and the set of those that it allows.
#[derive(Drop)]
pub struct Modeled {
    pub model: Model,
    pub space: BddSpace,
    pub allowed: <BddSpace as Space>::Id,
}

/// The model that the bytes of a file of this path spell, in DIMACS form where the path says so.
pub fn spelled_model(alloc: Global, path: &str, text: &[u8]) -> Result<Model, ModelFault>
    ensures exact { Answers result (spelled_model path.now text.now) }
    ensures lawful { IfOk result IsModel }
    ensures names { IfOk result HasOptionNames }
{
    if is_dimacs(path) {
        read_dimacs(alloc, text)
    } else {
        read_model(alloc, text)
    }
}

/// The model of a file of this path, or the refusal of its first bad line.
pub fn model_of(alloc: Global, path: &str, text: &[u8]) -> Result<Model, Status>
    ensures exact { MatchResult result (λ model. model_of path.now text.now ≡ Ok model)
        (λ status. (status ≡ Status.NoMemory) ⊎ (model_of path.now text.now ≡ Err status)) }
    ensures lawful { IfOk result IsModel }
    ensures names { IfOk result HasOptionNames }
{
    match spelled_model(alloc, path, text) {
        Ok(model) => Ok(model),
        Err(ModelFault::NoMemory) => Err(Status::NoMemory),
        Err(ModelFault::Line { line, reason }) => Err(Status::BadModel { line, reason }),
    }
}

/// A model with a space of its options and the set of the configurations that it allows.
pub fn with_allowed(alloc: Global, model: Model) -> Result<Modeled, Status>
    requires lawful { IsModel model }
    ensures model { IfOk result (λ found. found.model ≡ model) }
    ensures options { IfOk result (λ found. (⟦<BddSpace as Space>⟧.sets found.space).options ≡ length model.options) }
    ensures allowed { IfOk result (λ found. IsSet (⟦<BddSpace as Space>⟧.sets found.space) found.allowed (is_allowed model)) }
    ensures err { IfErr result (λ status. status ≡ Status.NoMemory) }
{
    let mut space = BddSpace::new(alloc, model.options.len() as u32)?;
    let allowed = allowed(&mut space, &model)?;
    Ok(Modeled {
        model,
        space,
        allowed,
    })
}

/// Whether a model allows a configuration, by the set of those that it allows.
pub fn is_allowing<S: Space>(space: &S, model: &Model, allowed: S::Id) -> bool
    requires { IsSet (S.sets space.now) allowed (is_allowed model.now) }
    ensures some { result ≡ true → AllowsSome model.now }
    ensures nonempty { result ≡ true → allowed ≢ (S.sets space.now).never }
    ensures none { result ≡ false → AllowsNone model.now }
{
    !space.is_never(allowed)
}

/// A model that allows a configuration, with a space of its options and the set of those that it allows.
pub fn allowing_model(alloc: Global, model: Model) -> Result<Modeled, Status>
    requires lawful { IsModel model }
    requires names { HasOptionNames model }
    ensures { MatchResult result
        (λ found. (found.model ≡ model) × IsModeled found.model (⟦<BddSpace as Space>⟧.sets found.space) found.allowed)
        (λ status. (status ≡ Status.NoMemory) ⊎ ((status ≡ Status.NoConfiguration) × AllowsNone model)) }
{
    let found = with_allowed(alloc, model)?;
    if is_allowing(&found.space, &found.model, found.allowed) {
        return Ok(found);
    }
    Err(Status::NoConfiguration)
}

/// Reads a model that allows a configuration.
pub fn read_model_file<F: Files>(
    alloc: Global,
    files: &mut F,
    path: &str,
) -> Result<Modeled, Status>
    ensures ok { IfOk result (λ found. (next : Model → Plan) →
        Leads (F.seen files.old).held (read_model path.now next) (next found.model)) }
    ensures modeled { IfOk result (λ found. IsModeled found.model (⟦<BddSpace as Space>⟧.sets found.space) found.allowed) }
    ensures err { IfErr result (λ status. (next : Model → Plan) →
        MayStop (F.seen files.old) (F.seen files.new) (read_model path.now next) status) }
    ensures keeps { KeepsFiles (F.seen files.old) (F.seen files.new) }
{
    let text = read_file(alloc, files, MOST_BYTES, path, path)?;
    let model = model_of(alloc, path, text.as_slice())?;
    allowing_model(alloc, model)
}

/// Reads a model, whether or not it allows a configuration.
pub fn read_any_model<F: Files>(alloc: Global, files: &mut F, path: &str) -> Result<Model, Status>
    ensures ok { IfOk result (λ model. (next : Model → Plan) →
        Leads (F.seen files.old).held (read_any_model path.now next) (next model)) }
    ensures lawful { IfOk result IsModel }
    ensures err { IfErr result (λ status. (next : Model → Plan) →
        MayStop (F.seen files.old) (F.seen files.new) (read_any_model path.now next) status) }
    ensures keeps { KeepsFiles (F.seen files.old) (F.seen files.new) }
{
    let text = read_file(alloc, files, MOST_BYTES, path, path)?;
    model_of(alloc, path, text.as_slice())
}
