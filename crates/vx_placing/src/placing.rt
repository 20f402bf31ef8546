//! What an attempt came to takes its place: among the groups that wait, among the ends with their numbers of attempts, and
//! among the texts of the round.

ghost use Rattle.std.specs.Prelude.{◌≡◌, ◌<◌, ◌==◌, Bool, List, Some, true, if◌then◌else◌, length, position, OnOk};
ghost use Rattle.std.specs.List.{list_all};
ghost use Rattle.std.specs.Ordering.{nat_cmp};
ghost use Rattle.vx_space.specs.Sets.{Extends, IsKnown, Sets};
ghost use Rattle.vx_cond.specs.Cond.{IsCond};
ghost use Rattle.vx_cond.specs.Leaves.{AreLeaves, AreLeavesApart, AreLeavesOf, IsApart, first_of, value_at};
ghost use Rattle.vx_group.specs.Group.{attempts_at, path_of};
ghost use Rattle.vx_findings.specs.Orders.{piece_cmp};
ghost use Rattle.vx_findings.specs.Shared.{leaves_of};
ghost use Rattle.vx_java.specs.Machine.{Goes};
ghost use Rattle.vx_java.specs.Machine.{Write as WriteOf};
ghost use Rattle.vx_outcome.specs.Outcome.{Divide, condition_of};
ghost use Rattle.vx_group_states.specs.Stands.{state_at};
ghost use Rattle.vx_value.specs.declared.end.End.TheVariants.{Unfinished};
ghost use Rattle.vx_value.specs.Texts.{text_at};
ghost use Rattle.vx_standing.specs.Attempted.{is_placed};
ghost use Rattle.vx_placing.specs.Placing.{HaveGoneOn, MayEnd, MayGoOn, MayPlace, ArePlaceable, AreWritten, IsEnded, IsOutcomePlaced, IsPlaceable, IsPut, IsUnwritten, IsUsedUp, leads_in, said_by, said_in};
ghost use Rattle.vx_standing.specs.Waiting.{piece_if};

use crate::round::{Round, Setting};
use std::alloc::Global;
use vx_cond::{Cond, Leaf};
use vx_findings::{Piece, Shared, add};
use vx_group::Group;
use vx_outcome::Outcome;
use vx_sched::place_group;
use vx_space::{Space, SpaceFault};
use vx_spelling::utf8;
use vx_value::{End, Name, Stream};

fn has_value<S: Space>(leaf: &Leaf<u64, S>, value: u64) -> bool
    ensures { result ≡ (leaf.now.value == value) }
{
    leaf.value == value
}

fn place_of<S: Space>(leaves: &[Leaf<u64, S>], value: u64) -> Option<usize>
    ensures { result ≡ position (λ leaf. leaf.value == value) leaves.now }
{
    leaves.iter().position(|leaf| has_value(leaf, value))
}

/// The condition of those that have used all their attempts, if there are any.
fn used_up<S: Space>(attempts: &Cond<u64, S>, limit: u64) -> Option<S::Id>
    ensures { (sets : Sets S.Id) → IsCond nat_cmp sets attempts.now → IsUsedUp sets attempts.now limit result }
{
    let leaves = attempts.leaves();
    match place_of(leaves, limit) {
        Some(place) => Some(leaves[place].condition),
        None => None,
    }
}

/// Adds numbers of attempts with their conditions.
fn add_spent<S: Space>(
    space: &mut S,
    spent: &mut Vec<Shared<u64, S>>,
    leaves: &[Leaf<u64, S>],
) -> Result<(), SpaceFault>
    requires spent { AreLeaves nat_cmp (S.sets space.old) (leaves_of spent.old.items) }
    requires leaves { AreLeaves nat_cmp (S.sets space.old) leaves.now }
    requires apart { AreLeavesApart (S.sets space.old) (leaves_of spent.old.items) leaves.now }
    ensures extends { Extends (S.sets space.old) (S.sets space.new) }
    ensures added { OnOk result (AreLeavesOf nat_cmp (S.sets space.new) (first_of (value_at (S.sets space.old) (leaves_of spent.old.items)) (value_at (S.sets space.old) leaves.now)) (leaves_of spent.new.items)) }
{
    for leaf in leaves {
        add(space, spent, leaf.value, leaf.condition)?;
    }
    Ok(())
}

/// Runs have come to an end, with the attempts that they have made.
fn finish<S: Space>(
    space: &mut S,
    round: &mut Round<S>,
    attempts: &Cond<u64, S>,
    condition: S::Id,
    end: End,
) -> Result<(), SpaceFault>
    requires { MayEnd (S.sets space.old) round.old attempts.now condition }
    ensures extends { Extends (S.sets space.old) (S.sets space.new) }
    ensures ended { OnOk result (IsEnded (S.sets space.old) (S.sets space.new) attempts.now condition end round.old round.new) }
{
    let inside = attempts.restrict(space, condition)?;
    add(space, &mut round.ends, end, condition)?;
    add_spent(space, &mut round.spent, inside.leaves())
}

/// Runs that have attempts left wait for the next one.
fn wait<S: Space>(
    setting: &Setting<S>,
    space: &mut S,
    round: &mut Round<S>,
    group: Group<S>,
) -> Result<(), SpaceFault>
    requires going { MayGoOn setting.now.program.now (S.sets space.old) setting.now.heap.now setting.now.limit round.old group }
    requires left { (c : List Bool) → (S.sets space.old).test (path_of group) c ≡ true → attempts_at (S.sets space.old) group c < setting.now.limit }
    ensures extends { Extends (S.sets space.old) (S.sets space.new) }
    ensures gone { OnOk result (HaveGoneOn setting.now.program.now (S.sets space.old) (S.sets space.new) setting.now.heap.now setting.now.limit group round.old round.new) }
{
    place_group(&mut round.callers, space, &mut round.groups, group)
}

/// The runs of a group have used up their attempts: they have come to the end `Unfinished`.
fn give_up<S: Space>(space: &mut S, round: &mut Round<S>, group: Group<S>) -> Result<(), SpaceFault>
    requires { MayEnd (S.sets space.old) round.old group.attempts (path_of group) }
    ensures extends { Extends (S.sets space.old) (S.sets space.new) }
    ensures ended { OnOk result (IsEnded (S.sets space.old) (S.sets space.new) group.attempts (path_of group) Unfinished round.old round.new) }
{
    finish(
        space,
        round,
        group.attempts(),
        group.path(),
        End::Unfinished,
    )
}

/// Runs go on, and some of them have used up their attempts: these have come to the end `Unfinished`.
fn go_on_in_part<S: Space>(
    setting: &Setting<S>,
    space: &mut S,
    round: &mut Round<S>,
    group: Group<S>,
    used: S::Id,
) -> Result<(), SpaceFault>
    requires going { MayGoOn setting.now.program.now (S.sets space.old) setting.now.heap.now setting.now.limit round.old group }
    requires used { IsUsedUp (S.sets space.old) group.attempts setting.now.limit (Some used) }
    ensures extends { Extends (S.sets space.old) (S.sets space.new) }
    ensures gone { OnOk result (HaveGoneOn setting.now.program.now (S.sets space.old) (S.sets space.new) setting.now.heap.now setting.now.limit group round.old round.new) }
{
    let (done, going) = group.split(space, used)?;
    give_up(space, round, done)?;
    wait(setting, space, round, going)
}

/// Runs go on: those that have attempts left wait, and the others have come to the end `Unfinished`.
fn go_on<S: Space>(
    setting: &Setting<S>,
    space: &mut S,
    round: &mut Round<S>,
    group: Group<S>,
) -> Result<(), SpaceFault>
    requires { MayGoOn setting.now.program.now (S.sets space.old) setting.now.heap.now setting.now.limit round.old group }
    ensures extends { Extends (S.sets space.old) (S.sets space.new) }
    ensures gone { OnOk result (HaveGoneOn setting.now.program.now (S.sets space.old) (S.sets space.new) setting.now.heap.now setting.now.limit group round.old round.new) }
{
    match used_up(group.attempts(), setting.limit) {
        Some(used) => go_on_in_part(setting, space, round, group, used),
        None => wait(setting, space, round, group),
    }
}

/// Adds a text to those of the round, unless it is empty.
fn put_text<S: Space>(
    space: &mut S,
    texts: &mut Vec<Shared<Piece, S>>,
    stream: Stream,
    text: Vec<u8>,
    condition: S::Id,
) -> Result<(), SpaceFault>
    requires texts { AreLeaves piece_cmp (S.sets space.old) (leaves_of texts.old.items) }
    requires known { IsKnown (S.sets space.old) condition }
    requires apart { IsApart (S.sets space.old) condition (leaves_of texts.old.items) }
    ensures extends { Extends (S.sets space.old) (S.sets space.new) }
    ensures put { OnOk result (AreLeavesOf piece_cmp (S.sets space.new) (λ c. if (S.sets space.old).test condition c then piece_if stream text.items else value_at (S.sets space.old) (leaves_of texts.old.items) c) (leaves_of texts.new.items)) }
{
    if text.is_empty() {
        return Ok(());
    }
    let piece = Piece {
        stream,
        text: Name::from_vec(text),
    };
    add(space, texts, piece, condition)
}

/// Runs write the text of a number and go on.
fn write<S: Space>(
    alloc: Global,
    setting: &Setting<S>,
    space: &mut S,
    round: &mut Round<S>,
    group: Group<S>,
    stream: Stream,
    text: u64,
) -> Result<(), SpaceFault>
    requires going { MayGoOn setting.now.program.now (S.sets space.old) setting.now.heap.now setting.now.limit round.old group }
    requires text { text < length setting.now.heap.now.texts }
    requires unwritten { IsUnwritten (S.sets space.old) round.old ((S.sets space.old).test (path_of group)) }
    ensures extends { Extends (S.sets space.old) (S.sets space.new) }
    ensures put { OnOk result (IsPut setting.now.program.now (S.sets space.old) (S.sets space.new) setting.now.heap.now setting.now.limit (attempts_at (S.sets space.old) group) (leads_in (S.sets space.old) (path_of group) (λ c. Goes (state_at (S.sets space.old) setting.now.heap.now round.old.callers group c))) round.old round.new) }
    ensures written { OnOk result (AreWritten (S.sets space.old) (S.sets space.new) (leads_in (S.sets space.old) (path_of group) (λ c. WriteOf stream (text_at setting.now.heap.now.texts text) (state_at (S.sets space.old) setting.now.heap.now round.old.callers group c))) round.old round.new) }
{
    let bytes = utf8(alloc, setting.heap.texts().text(text))?;
    put_text(space, &mut round.texts, stream, bytes, group.path())?;
    go_on(setting, space, round, group)
}

/// Gives an outcome its place.
fn place_outcome<S: Space>(
    alloc: Global,
    setting: &Setting<S>,
    space: &mut S,
    round: &mut Round<S>,
    attempts: &Cond<u64, S>,
    outcome: Outcome<S>,
) -> Result<(), SpaceFault>
    requires may { MayPlace setting.now.program.now (S.sets space.old) setting.now.heap.now setting.now.limit attempts.now round.old ((S.sets space.old).test (condition_of outcome)) }
    requires placeable { IsPlaceable setting.now.program.now (S.sets space.old) setting.now.heap.now round.old.callers attempts.now outcome }
    requires placed { is_placed outcome ≡ true }
    ensures extends { Extends (S.sets space.old) (S.sets space.new) }
    ensures placed { OnOk result (IsOutcomePlaced setting.now.program.now (S.sets space.old) (S.sets space.new) setting.now.heap.now setting.now.limit attempts.now (said_by (S.sets space.old) setting.now.heap.now round.old.callers outcome) round.old round.new) }
{
    match outcome {
        Outcome::Go { group } => go_on(setting, space, round, group),
        Outcome::Write {
            group,
            stream,
            text,
        } => write(alloc, setting, space, round, group, stream, text),
        Outcome::Ended { condition, end } => finish(space, round, attempts, condition, end),
        Outcome::Raise {
            group: _group,
            class: _class,
            message: _message,
        } => unreachable!(),
        Outcome::Throw {
            group: _group,
            thrown: _thrown,
        } => unreachable!(),
        Outcome::Begin {
            group: _group,
            class: _class,
        } => unreachable!(),
        Outcome::Native {
            group: _group,
            method: _method,
        } => unreachable!(),
    }
}

/// Gives each outcome of an attempt its place, one after the other. Each goes on, writes, or has ended; the heap stays. After
/// want of memory the round is given up.
pub fn place_all<S: Space>(
    alloc: Global,
    setting: &Setting<S>,
    space: &mut S,
    round: &mut Round<S>,
    attempts: &Cond<u64, S>,
    outcomes: Vec<Outcome<S>>,
) -> Result<(), SpaceFault>
    requires may { MayPlace setting.now.program.now (S.sets space.old) setting.now.heap.now setting.now.limit attempts.now round.old ((S.sets space.old).test attempts.now.scope) }
    requires divide { Divide (S.sets space.old) ((S.sets space.old).test attempts.now.scope) outcomes.items }
    requires placeable { ArePlaceable setting.now.program.now (S.sets space.old) setting.now.heap.now round.old.callers attempts.now outcomes.items }
    requires placed { list_all is_placed outcomes.items ≡ true }
    ensures extends { Extends (S.sets space.old) (S.sets space.new) }
    ensures placed { OnOk result (IsOutcomePlaced setting.now.program.now (S.sets space.old) (S.sets space.new) setting.now.heap.now setting.now.limit attempts.now (said_in (S.sets space.old) setting.now.heap.now round.old.callers outcomes.items) round.old round.new) }
{
    for outcome in outcomes {
        place_outcome(alloc, setting, space, round, attempts, outcome)?;
    }
    Ok(())
}
