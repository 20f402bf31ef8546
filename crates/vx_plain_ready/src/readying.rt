//! Classes that an instruction needs initialised (JVMS 5.5).

ghost use Rattle.std.specs.Prelude.{◌≡◌, IfOk, true};
ghost use Rattle.vx_java.specs.Initialisation.{quiet_chain};
ghost use Rattle.vx_java.specs.Machine.{init_at};
ghost use Rattle.vx_plain.specs.Views.{state_of};
ghost use Rattle.vx_plain_here.specs.Rows.{here_in};
ghost use Rattle.vx_plain_ready.specs.Ready.{Readied};
ghost use Rattle.vx_value.specs.declared.slot.InitState.TheVariants.{Failed, Not};

use vx_java::init_chain;
use vx_list::GivenUp;
use vx_plain::State;
use vx_plain_here::{Here, Outcome};
use vx_value::{ClassId, InitState};

/// Marks a chain whose marking has no other effect.
#[tactic(auto, unfolding(vx_plain::specs::Views::state_of))]
fn mark_quiet(
    here: &Here<'_>,
    state: &mut State,
    class: ClassId,
) -> Result<Option<Outcome>, GivenUp>
    requires not { init_at (state_of state.old).inits class.0 ≡ Not }
    requires quiet { quiet_chain here.now.program.now (state_of state.old).inits class.0 ≡ true }
    ensures { IfOk result (Readied (here_in here.now (state_of state.old)) class.0 (state_of state.new)) }
{
    let chain = init_chain(here.alloc, here.program, class, state.inits.as_slice())?;
    state.mark(&chain, InitState::Done);
    Ok(None)
}

/// A class whose initialisation has not begun is marked where that has no other effect; else it begins.
fn mark_or_begin(
    here: &Here<'_>,
    state: &mut State,
    class: ClassId,
) -> Result<Option<Outcome>, GivenUp>
    requires { init_at (state_of state.old).inits class.0 ≡ Not }
    ensures { IfOk result (Readied (here_in here.now (state_of state.old)) class.0 (state_of state.new)) }
{
    if state.is_quiet(here.program, class) {
        mark_quiet(here, state, class)
    } else {
        Ok(Some(Outcome::Begin(class)))
    }
}

/// A class whose initialisation has failed is not there any more.
fn not_there(here: &Here<'_>, state: &State, class: ClassId) -> Result<Option<Outcome>, GivenUp>
    requires { init_at (state_of state.now).inits class.0 ≡ Failed }
    ensures { IfOk result (Readied (here_in here.now (state_of state.now)) class.0 (state_of state.now)) }
{
    let raised = here.raise(state, b"java/lang/NoClassDefFoundError")?;
    Ok(Some(raised))
}

/// Makes a class ready, where that takes no frame: then the row goes on; else it gives what the attempt comes to.
pub fn ready(here: &Here<'_>, state: &mut State, class: ClassId) -> Result<Option<Outcome>, GivenUp>
    ensures { IfOk result (Readied (here_in here.now (state_of state.old)) class.0 (state_of state.new)) }
{
    match state.init_of(class) {
        InitState::Done => Ok(None),
        InitState::Running => Ok(None),
        InitState::Failed => not_there(here, state, class),
        InitState::Not => mark_or_begin(here, state, class),
    }
}
