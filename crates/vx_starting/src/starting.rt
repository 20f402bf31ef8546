//! The start of all runs.

ghost use Rattle.std.specs.Prelude.{◌≡◌, ◌<◌, [], IfOk, IfSome, None, Ok, codes, false, length, true};
ghost use Rattle.vx_space.specs.Sets.{Extends, IsKnown};
ghost use Rattle.vx_families.specs.Bounds.{IsBounded};
ghost use Rattle.vx_frame.specs.Frame.{IsFrameOf, scope_of, shape_of};
ghost use Rattle.vx_heap.specs.Heap.{IsHeapFor, has_options};
ghost use Rattle.vx_java.specs.Ids.{HasClassNumbers};
ghost use Rattle.vx_java.specs.Initialisation.{quiet_chain};
ghost use Rattle.vx_java.specs.Machine.{place_at};
ghost use Rattle.vx_java.specs.Operation.{class_word};
ghost use Rattle.vx_java.specs.Step.{first_inits};
ghost use Rattle.vx_link.specs.Parts.{class_at};
ghost use Rattle.vx_ready.specs.Initialising.{numbers_of};
ghost use Rattle.vx_standing.specs.Rounds.{IsStart};
ghost use Rattle.vx_starting.specs.Starting.{EndAtStart, GoOn, IsMainGroup, IsMarkedHeap, IsPushedGroup, MayStart, begun_state, main_chain, main_class, main_frame, main_locals};
ghost use Rattle.vx_value.specs.declared.end.End.TheVariants.{Uncaught, Unsupported};
ghost use Rattle.vx_value.specs.declared.key.Kind.TheVariants.{Call};

use std::alloc::{AllocError, Global};
use vx_cond::Cond;
use vx_families::CLASS_WORD;
use vx_findings::Shared;
use vx_frame::Frame;
use vx_frames::MOST_FRAMES;
use vx_group::{Callers, Group};
use vx_heap::Heap;
use vx_init::push_chain;
use vx_initial_heap::first_inits;
use vx_java::parts::{class_of_method, name_of_class};
use vx_java::{chain_blocked, init_chain, place, quiet_chain};
use vx_link::Program;
use vx_ready::mark_classes;
use vx_sched::Waiting;
use vx_space::{Space, SpaceFault};
use vx_standing::State;
use vx_turns::sweep;
use vx_value::{ClassId, End, InitState, Kind, Name, Slot};

/// The end of runs outside the accepted language by an interface, at the start of main.
fn blocked_end(alloc: Global, program: &Program, interface: ClassId) -> Result<End, AllocError>
    ensures { IfOk result (λ end. end ≡ Unsupported class_word (class_at program.now interface.0).name (place_at program.now program.now.main.0 0)) }
{
    let what = Name::of(alloc, name_of_class(program, interface))?;
    let place = place(alloc, program, program.main, 0)?;
    Ok(End::Unsupported {
        word: CLASS_WORD,
        what,
        place,
    })
}

/// The end of runs with too many frames (JVMS 2.5.2).
fn overflow_end(alloc: Global) -> Result<End, AllocError>
    ensures { IfOk result (λ end. end ≡ Uncaught (codes "java/lang/StackOverflowError")) }
{
    Ok(End::Uncaught(Name::of(alloc, b"java/lang/StackOverflowError")?))
}

/// The end of all runs where they end at their start: by an interface that would be initialised before the class of main, or by one
/// frame too many (JVMS 2.5.2, 5.5).
fn first_end(
    alloc: Global,
    program: &Program,
    chain: &[ClassId],
    is_quiet: bool,
) -> Result<Option<End>, AllocError>
    requires classes { HasClassNumbers program.now }
    requires chain { numbers_of chain.now ≡ main_chain program.now }
    requires quiet { is_quiet ≡ quiet_chain program.now (first_inits program.now) (main_class program.now) }
    ensures over { IfOk result (λ end. IfSome end (EndAtStart program.now)) }
    ensures live { result ≡ Ok None → GoOn program.now is_quiet }
    ensures few { result ≡ Ok None → is_quiet ≡ false → length chain.now < 1024 }
{
    if let Some(interface) = chain_blocked(program, chain) {
        let end = blocked_end(alloc, program, interface)?;
        return Ok(Some(end));
    }
    if !is_quiet && chain.len() >= MOST_FRAMES as usize {
        let end = overflow_end(alloc)?;
        return Ok(Some(end));
    }
    Ok(None)
}

/// The state of runs that all end at their start.
fn ended_start<S: Space>(
    alloc: Global,
    program: &Program,
    space: &mut S,
    allowed: S::Id,
    limit: u64,
    end: End,
) -> Result<State<S>, SpaceFault>
    requires start { MayStart program.now (S.sets space.old) allowed limit }
    requires over { EndAtStart program.now end }
    ensures extends { Extends (S.sets space.old) (S.sets space.new) }
    ensures ok { IfOk result (IsStart program.now (S.sets space.new) allowed limit) }
{
    let heap = Heap::new(alloc, program, space, allowed)?;
    let mut ends = Vec::new(alloc);
    ends.push(Shared {
        condition: allowed,
        value: end,
    })?;
    let mut spent = Vec::new(alloc);
    spent.push(Shared {
        condition: allowed,
        value: 0,
    })?;
    Ok(State {
        heap,
        callers: Callers::new(alloc),
        groups: Waiting::new(alloc),
        limit,
        rounds: 0,
        found: Vec::new(alloc),
        ends,
        spent,
    })
}

/// The heap with which runs begin, where some classes have a state.
fn marked_heap<S: Space>(
    alloc: Global,
    program: &Program,
    space: &mut S,
    allowed: S::Id,
    classes: &[ClassId],
    state: InitState,
) -> Result<Heap<S>, SpaceFault>
    requires bounded { IsBounded program.now }
    requires options { has_options (S.sets space.old).options program.now.fields ≡ true }
    requires known { IsKnown (S.sets space.old) allowed }
    ensures extends { Extends (S.sets space.old) (S.sets space.new) }
    ensures ok { IfOk result (IsMarkedHeap program.now (S.sets space.new) allowed state (numbers_of classes.now)) }
{
    let mut heap = Heap::new(alloc, program, space, allowed)?;
    mark_classes(alloc, program, space, &mut heap, classes, allowed, state)?;
    Ok(heap)
}

/// How many locals main has.
fn main_locals(program: &Program) -> u16
    ensures { result ≡ main_locals program.now }
{
    match program.method(program.main) {
        Some(method) => match &method.code {
            Some(code) => code.max_locals,
            None => 0,
        },
        None => 0,
    }
}

/// The frame of main, with the array in its first local (JVMS 5.2).
fn main_frame<S: Space>(
    alloc: Global,
    program: &Program,
    space: &S,
    words: u64,
    allowed: S::Id,
) -> Result<Frame<S>, AllocError>
    requires known { IsKnown (S.sets space.now) allowed }
    requires some { 0 < main_locals program.now }
    ensures scope { IfOk result (λ frame. scope_of frame ≡ allowed) }
    ensures shape { IfOk result (λ frame. shape_of frame ≡ record { part = record { method = program.now.main; position = 0; depth = 0; kind = Call }; locals = main_locals program.now }) }
    ensures at { IfOk result (IsFrameOf (S.sets space.now) (λ _. main_frame program.now words)) }
{
    let mut frame = Frame::new(
        alloc,
        space,
        Kind::Call,
        program.main,
        main_locals(program),
        allowed,
    )?;
    let array = Cond::one(alloc, space, Slot::Ref(words), allowed)?;
    frame.locals.set(0, array);
    Ok(frame)
}

/// The group of all runs at the start of main (JVMS 5.2).
fn main_group<S: Space>(
    alloc: Global,
    program: &Program,
    space: &S,
    heap: &Heap<S>,
    allowed: S::Id,
) -> Result<Group<S>, AllocError>
    requires known { IsKnown (S.sets space.now) allowed }
    requires some { 0 < main_locals program.now }
    requires for_program { IsHeapFor program.now heap.now }
    requires runs { heap.now.allowed ≡ allowed }
    ensures { IfOk result (IsMainGroup program.now (S.sets space.now) allowed heap.now) }
{
    let frame = main_frame(alloc, program, space, heap.first_words(), allowed)?;
    let attempts = Cond::one(alloc, space, 0, allowed)?;
    let group = Group::new(alloc, attempts, frame);
    Ok(group)
}

/// The state of runs that stand in one group and have made no attempt.
fn begun_state<S: Space>(
    alloc: Global,
    heap: Heap<S>,
    callers: Callers<S>,
    group: Group<S>,
    limit: u64,
) -> Result<State<S>, AllocError>
    ensures { IfOk result (λ state. state ≡ begun_state heap callers limit group) }
{
    let mut groups = Waiting::new(alloc);
    groups.push(group)?;
    Ok(State {
        heap,
        callers,
        groups,
        limit,
        rounds: 0,
        found: Vec::new(alloc),
        ends: Vec::new(alloc),
        spent: Vec::new(alloc),
    })
}

/// The state of runs that all begin with main, where the classes of the chain are initialised without running anything.
fn quiet_start<S: Space>(
    alloc: Global,
    program: &Program,
    space: &mut S,
    allowed: S::Id,
    limit: u64,
    chain: &[ClassId],
) -> Result<State<S>, SpaceFault>
    requires start { MayStart program.now (S.sets space.old) allowed limit }
    requires chain { numbers_of chain.now ≡ main_chain program.now }
    requires live { GoOn program.now true }
    ensures extends { Extends (S.sets space.old) (S.sets space.new) }
    ensures ok { IfOk result (IsStart program.now (S.sets space.new) allowed limit) }
{
    let heap = marked_heap(alloc, program, space, allowed, chain, InitState::Done)?;
    let group = main_group(alloc, program, space, &heap, allowed)?;
    let state = begun_state(alloc, heap, Callers::new(alloc), group, limit)?;
    Ok(state)
}

/// The group of all runs at the start of the topmost class of the chain, with the frames of the others and of main under it (JVMS 5.5).
fn pushed_group<S: Space>(
    alloc: Global,
    program: &Program,
    space: &S,
    heap: &Heap<S>,
    callers: &mut Callers<S>,
    allowed: S::Id,
    chain: &[ClassId],
) -> Result<Group<S>, SpaceFault>
    requires known { IsKnown (S.sets space.now) allowed }
    requires some { 0 < main_locals program.now }
    requires for_program { IsHeapFor program.now heap.now }
    requires runs { heap.now.allowed ≡ allowed }
    requires none { callers.old ≡ [] }
    requires few { length chain.now < 1024 }
    ensures { IfOk result (IsPushedGroup program.now (S.sets space.now) allowed heap.now callers.new (numbers_of chain.now)) }
{
    let group = main_group(alloc, program, space, heap, allowed)?;
    let above = push_chain(alloc, program, space, callers, group, chain)?;
    Ok(above)
}

/// The state of runs that all begin with the initialisation of the class of main: the classes of the chain are in progress, and have their
/// frames above that of main (JVMS 5.5).
fn pushed_start<S: Space>(
    alloc: Global,
    program: &Program,
    space: &mut S,
    allowed: S::Id,
    limit: u64,
    chain: &[ClassId],
) -> Result<State<S>, SpaceFault>
    requires start { MayStart program.now (S.sets space.old) allowed limit }
    requires chain { numbers_of chain.now ≡ main_chain program.now }
    requires few { length chain.now < 1024 }
    requires live { GoOn program.now false }
    ensures extends { Extends (S.sets space.old) (S.sets space.new) }
    ensures ok { IfOk result (IsStart program.now (S.sets space.new) allowed limit) }
{
    let heap = marked_heap(alloc, program, space, allowed, chain, InitState::Running)?;
    let mut callers = Callers::new(alloc);
    let group = pushed_group(alloc, program, space, &heap, &mut callers, allowed, chain)?;
    let mut state = begun_state(alloc, heap, callers, group, limit)?;
    sweep(alloc, &mut state)?;
    Ok(state)
}

/// The state with which the runs of some configurations begin, each with at most `limit` attempts (JVMS 5.2). After a refusal ids that
/// were known keep their sets.
pub fn start<S: Space>(
    alloc: Global,
    program: &Program,
    space: &mut S,
    allowed: S::Id,
    limit: u64,
) -> Result<State<S>, SpaceFault>
    requires { MayStart program.now (S.sets space.old) allowed limit }
    ensures extends { Extends (S.sets space.old) (S.sets space.new) }
    ensures ok { IfOk result (IsStart program.now (S.sets space.new) allowed limit) }
{
    let states = first_inits(alloc, program)?;
    let class = class_of_method(program, program.main);
    let chain = init_chain(alloc, program, class, states.as_slice())?;
    let classes = chain.as_slice();
    let is_quiet = quiet_chain(program, class, states.as_slice());
    if let Some(end) = first_end(alloc, program, classes, is_quiet)? {
        return ended_start(alloc, program, space, allowed, limit, end);
    }
    if is_quiet {
        return quiet_start(alloc, program, space, allowed, limit, classes);
    }
    pushed_start(alloc, program, space, allowed, limit, classes)
}
