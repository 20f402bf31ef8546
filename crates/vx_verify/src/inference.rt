//! The inference of a method's types: from the start, each instruction is looked at with the types before it, and what it makes is
//! merged into each position to which it leads, until nothing changes (JVMS 4.10.2.2).

ghost use Rattle.std.specs.Bool.{MatchBool};
ghost use Rattle.std.specs.BTreeSet.{IsEmpty};
ghost use Rattle.std.specs.List.{list_all};
ghost use Rattle.std.specs.Prelude.{◌≡◌, ◌<◌, ◌≤◌, ◌^◌, ◌&&◌, ◌==◌, IfOk, None, OnOk, Some, length, nat_le, nat_lt, replicate, true};
ghost use Rattle.vx_java.specs.Ids.{HasClassNumbers};
ghost use Rattle.vx_types.specs.Flow.{stack_size, targets_of};
ghost use Rattle.vx_types.specs.Ranked.{IsRanked};
ghost use Rattle.vx_types.specs.Rows.{row_of};
ghost use Rattle.vx_verify.specs.Inference.{AreCaught, AreForced, AreHandled, AreReached, Goes, HasMerged, HasNoTyping, IsCaught, IsClosedIn, IsDecoded, IsFollowed, IsForcedIn, IsHandled, IsInference, IsJoint, IsLooked, IsNext, IsRaising, IsSubject, IsSwept, Leads, Reaches, caught_state, is_last, joint_of, known_of, state_of};
ghost use Rattle.vx_verify.specs.KnownRows.{AreKnown};
ghost use Rattle.vx_verify.specs.Quieting.{IsQuiet, QuietGoes, QuietHandled, QuietLooked};
ghost use Rattle.vx_verify.specs.States.{IsStack, IsStore, Stands, operands_at, state_at};
ghost use Rattle.vx_verify.specs.Typing.{IsCodeTyped, is_known};

use crate::known_rows::KnownRows;
use crate::quiet::{Quiet, around, is_quiet, none_quiet};
use crate::rows::{Frame, State, after};
use crate::start::{caught_by, levels_of, start_state};
use crate::store::Store;
use std::alloc::{AllocError, Global};
use std::collections::BTreeSet;
use vx_class::{Catch, Code};
use vx_java::decoding::operation;
use vx_java::{Operation, covers};
use vx_link::Program;
use vx_opcode::decode;
use vx_type_rows::{row_of, targets_of};
use vx_types::Row;
use vx_value::MethodId;

/// The types that are known so far at the positions of a method's code. A marked position has types that its instruction hasn't seen.
#[derive(Drop)]
struct Inference {
    store: Store,
    states: Vec<Option<State>>,
    marked: BTreeSet<u32>,
    /// The operands with which the handler of each catch row begins.
    caught: Vec<u32>,
}

/// A method whose types are inferred.
#[derive(Clone, Copy)]
struct Subject<'a> {
    program: &'a Program,
    method: MethodId,
    code: &'a Code,
    frame: Frame,
}

/// What merging types into those that are known at a position comes to: there are none above both, nothing is new, or they rise.
#[derive(Clone, Copy)]
enum Joint {
    Unlike,
    Same,
    Raised(State),
}

/// Whether nothing follows: the run ends, or the method does.
fn is_last(row: &Row) -> bool
    ensures { result ≡ is_last row.now }
{
    matches!(row, Row::Ends | Row::Leaves(_))
}

/// The operands with which the handlers of a method begin.
fn caught_by_rows(
    alloc: Global,
    store: &mut Store,
    program: &Program,
    method: MethodId,
    rows: &[Catch],
) -> Result<Vec<u32>, AllocError>
    requires classes { HasClassNumbers program.now }
    requires store { IsStore store.old }
    ensures { IfOk result (λ caught. AreCaught program.now method.0 store.old store.new rows.now caught.items) }
{
    let mut caught = Vec::new(alloc);
    for row in rows {
        let operands = caught_by(alloc, store, program, method, *row)?;
        caught.push(operands)?;
    }
    Ok(caught)
}

/// What two states have in common; `None` where they have other numbers of operands.
fn merged(
    alloc: Global,
    store: &mut Store,
    program: &Program,
    frame: Frame,
    known: State,
    state: State,
) -> Result<Option<State>, AllocError>
    requires classes { HasClassNumbers program.now }
    requires ranked { IsRanked program.now }
    requires store { IsStore store.old }
    requires few { frame.levels ≤ 16 }
    requires known { Stands store.old frame known }
    requires state { Stands store.old frame state }
    ensures { IfOk result (λ made. HasMerged program.now store.old store.new frame known state made) }
{
    let found = store.common_operands(alloc, program, known.operands, state.operands)?;
    match found {
        Some(operands) => {
            let levels = frame.levels;
            let locals = store.common_locals(alloc, program, known.locals, state.locals, levels)?;
            Ok(Some(State { locals, operands }))
        }
        None => Ok(None),
    }
}

fn is_same(one: State, other: State) -> bool
    ensures { result ≡ (one.locals == other.locals && one.operands == other.operands) }
{
    one.locals == other.locals && one.operands == other.operands
}

/// What a position has come to, whose types were merged with others.
fn joint_of(known: State, found: Option<State>) -> Joint
    ensures { result ≡ joint_of known found }
{
    let Some(both) = found else {
        return Joint::Unlike;
    };
    if is_same(both, known) {
        return Joint::Same;
    }
    Joint::Raised(both)
}

/// Whether a position lies in the code of a method.
fn is_inside(subject: &Subject, position: u32) -> bool
    ensures { result ≡ nat_lt position (length subject.now.code.now.bytes) }
{
    (position as usize) < subject.code.bytes.len()
}

/// Whether operands can be read, and have room on the stack.
fn is_readable(store: &Store, max_stack: u16, operands: u32) -> bool
    requires store { IsStore store.now }
    requires operands { IsStack store.now operands }
    ensures { result ≡ (list_all is_known (operands_at store.now operands) && nat_le (stack_size (operands_at store.now operands)) max_stack) }
{
    store.chains.words(operands) <= u32::from(max_stack)
}

/// No states, for so many positions.
fn no_states(alloc: Global, count: usize) -> Result<Vec<Option<State>>, AllocError>
    ensures { IfOk result (λ states. states.items ≡ replicate count None) }
{
    vec![in alloc; None; count]
}

impl Inference {
    /// Nothing is known but the types at the start of the code.
    fn new(alloc: Global, subject: &Subject) -> Result<Inference, AllocError>
        requires subject { IsSubject subject.now }
        ensures { IfOk result (IsInference subject.now) }
    {
        let mut inference = Inference {
            store: Store::new(alloc)?,
            states: Vec::new(alloc),
            marked: BTreeSet::new(alloc),
            caught: Vec::new(alloc),
        };
        inference.begin(alloc, subject)?;
        Ok(inference)
    }

    /// Puts the types at the start of the code where nothing is known.
    fn begin(&mut self, alloc: Global, subject: &Subject) -> Result<(), AllocError>
        requires subject { IsSubject subject.now }
        requires store { IsStore self.old.store }
        requires marked { IsEmpty self.old.marked }
        ensures { OnOk result (IsInference subject.now self.new) }
    {
        let program = subject.program;
        let method = subject.method;
        let rows = subject.code.catches.as_slice();
        let caught = caught_by_rows(alloc, &mut self.store, program, method, rows)?;
        self.caught = caught;
        let start = start_state(alloc, &mut self.store, program, method, subject.frame)?;
        let states = no_states(alloc, subject.code.bytes.len())?;
        self.states = states;
        self.states[0] = Some(start);
        self.marked.insert(0)?;
        Ok(())
    }

    /// What types and those of a position of the code come to. Nothing changes but the store.
    fn join(
        &mut self,
        alloc: Global,
        subject: &Subject,
        position: u32,
        state: State,
    ) -> Result<Joint, AllocError>
        requires subject { IsSubject subject.now }
        requires inference { IsInference subject.now self.old }
        requires position { position < length subject.now.code.now.bytes }
        requires stands { Stands self.old.store subject.now.frame state }
        requires forced { IsForcedIn subject.now position (state_at self.old.store subject.now.frame state) }
        ensures { IfOk result (IsJoint subject.now self.old self.new position state) }
    {
        let Some(known) = self.states[position as usize] else {
            return Ok(Joint::Raised(state));
        };
        let store = &mut self.store;
        let found = merged(alloc, store, subject.program, subject.frame, known, state)?;
        Ok(joint_of(known, found))
    }

    /// Puts higher types at a position of the code. The answer is false where no method can have them.
    fn raise(&mut self, subject: &Subject, position: u32, made: State) -> Result<bool, AllocError>
        requires subject { IsSubject subject.now }
        requires inference { IsInference subject.now self.old }
        requires position { position < length subject.now.code.now.bytes }
        requires raising { IsRaising subject.now self.old position made }
        ensures { IfOk result (λ raised. MatchBool raised (Reaches subject.now self.old self.new position made) (HasNoTyping subject.now)) }
    {
        if !is_readable(&self.store, subject.code.max_stack, made.operands) {
            return Ok(false);
        }
        self.states[position as usize] = Some(made);
        self.marked.insert(position)?;
        Ok(true)
    }

    /// Merges types into those of a position. The answer is false where the method then has no typing, as where the position lies
    /// outside of the code.
    fn reach(
        &mut self,
        alloc: Global,
        subject: &Subject,
        position: u32,
        state: State,
    ) -> Result<bool, AllocError>
        requires subject { IsSubject subject.now }
        requires inference { IsInference subject.now self.old }
        requires stands { Stands self.old.store subject.now.frame state }
        requires forced { IsForcedIn subject.now position (state_at self.old.store subject.now.frame state) }
        ensures { IfOk result (λ reached. MatchBool reached (Reaches subject.now self.old self.new position state) (HasNoTyping subject.now)) }
    {
        if !is_inside(subject, position) {
            return Ok(false);
        }
        let joint = self.join(alloc, subject, position, state)?;
        match joint {
            Joint::Unlike => Ok(false),
            Joint::Same => Ok(true),
            Joint::Raised(made) => self.raise(subject, position, made),
        }
    }

    /// Merges types into those of each of these positions.
    fn reach_all(
        &mut self,
        alloc: Global,
        subject: &Subject,
        targets: &[u32],
        state: State,
    ) -> Result<bool, AllocError>
        requires subject { IsSubject subject.now }
        requires inference { IsInference subject.now self.old }
        requires stands { Stands self.old.store subject.now.frame state }
        requires forced { AreForced subject.now targets.now (state_at self.old.store subject.now.frame state) }
        ensures { IfOk result (λ reached. MatchBool reached (AreReached subject.now self.old self.new targets.now state) (HasNoTyping subject.now)) }
    {
        for target in targets {
            let reached = self.reach(alloc, subject, *target, state)?;
            if !reached {
                return Ok(false);
            }
        }
        Ok(true)
    }

    /// Merges what an operation has made into the positions to which it leads.
    fn lead(
        &mut self,
        alloc: Global,
        subject: &Subject,
        at: u32,
        size: u32,
        operation: Operation,
        made: State,
    ) -> Result<bool, AllocError>
        requires subject { IsSubject subject.now }
        requires inference { IsInference subject.now self.old }
        requires stands { Stands self.old.store subject.now.frame made }
        requires decoded { IsDecoded subject.now at size operation }
        requires forced { AreForced subject.now (targets_of subject.now.code.now.bytes at size operation) (state_at self.old.store subject.now.frame made) }
        ensures { IfOk result (λ led. MatchBool led (Leads subject.now self.old self.new at size operation made) (HasNoTyping subject.now)) }
    {
        if !is_readable(&self.store, subject.code.max_stack, made.operands) {
            return Ok(false);
        }
        let code = subject.code.bytes.as_slice();
        let targets = targets_of(alloc, code, at, size, operation)?;
        self.reach_all(alloc, subject, &targets, made)
    }

    /// What an operation with a row makes, merged into the positions to which it leads.
    fn follow_row(
        &mut self,
        alloc: Global,
        subject: &Subject,
        at: u32,
        size: u32,
        operation: Operation,
        row: &Row,
        before: State,
    ) -> Result<bool, AllocError>
        requires subject { IsSubject subject.now }
        requires inference { IsInference subject.now self.old }
        requires known { known_of subject.now self.old at ≡ Some (state_at self.old.store subject.now.frame before) }
        requires stands { Stands self.old.store subject.now.frame before }
        requires decoded { IsDecoded subject.now at size operation }
        requires row { row.now ≡ row_of subject.now.program.now subject.now.method.0 operation }
        ensures { IfOk result (λ followed. MatchBool followed (IsFollowed subject.now self.old self.new at before) (HasNoTyping subject.now)) }
    {
        let is_last = is_last(row);
        let store = &mut self.store;
        let found = after(alloc, store, subject.program, subject.frame, row, before)?;
        let Some(made) = found else {
            return Ok(false);
        };
        if is_last {
            return Ok(true);
        }
        self.lead(alloc, subject, at, size, operation, made)
    }

    /// What an operation makes, merged into the positions to which it leads. Its row is kept where it names an entry of the pool.
    fn follow(
        &mut self,
        alloc: Global,
        subject: &Subject,
        at: u32,
        size: u32,
        operation: Operation,
        before: State,
        known: &mut KnownRows,
    ) -> Result<bool, AllocError>
        requires subject { IsSubject subject.now }
        requires inference { IsInference subject.now self.old }
        requires known { known_of subject.now self.old at ≡ Some (state_at self.old.store subject.now.frame before) }
        requires stands { Stands self.old.store subject.now.frame before }
        requires decoded { IsDecoded subject.now at size operation }
        requires rows { AreKnown subject.now.program.now subject.now.method.0 known.old.rows.items }
        ensures followed { IfOk result (λ followed. MatchBool followed (IsFollowed subject.now self.old self.new at before) (HasNoTyping subject.now)) }
        ensures rows { OnOk result (AreKnown subject.now.program.now subject.now.method.0 known.new.rows.items) }
    {
        known.make(alloc, subject.program, subject.method, operation)?;
        if let Some(row) = known.get(subject.program, subject.method, operation) {
            return self.follow_row(alloc, subject, at, size, operation, row, before);
        }
        let row = row_of(alloc, subject.program, subject.method, operation)?;
        self.follow_row(alloc, subject, at, size, operation, &row, before)
    }

    /// The local variables before an instruction, merged into the handler of a row, which begins with these operands.
    fn reach_handler(
        &mut self,
        alloc: Global,
        subject: &Subject,
        row: Catch,
        operands: u32,
        before: State,
    ) -> Result<bool, AllocError>
        requires subject { IsSubject subject.now }
        requires inference { IsInference subject.now self.old }
        requires stands { Stands self.old.store subject.now.frame before }
        requires caught { IsCaught subject.now.program.now subject.now.method.0 self.old.store row operands }
        requires forced { IsForcedIn subject.now row.handler (caught_state subject.now self.old row before) }
        ensures { IfOk result (λ reached. MatchBool reached (IsHandled subject.now self.old self.new row before) (HasNoTyping subject.now)) }
    {
        let caught = State { operands, ..before };
        self.reach(alloc, subject, u32::from(row.handler), caught)
    }

    /// The local variables before an instruction, merged into the handlers of the rows that cover it.
    fn handle_rows(
        &mut self,
        alloc: Global,
        subject: &Subject,
        at: u32,
        before: State,
    ) -> Result<bool, AllocError>
        requires subject { IsSubject subject.now }
        requires inference { IsInference subject.now self.old }
        requires stands { Stands self.old.store subject.now.frame before }
        requires forced { IsForcedIn subject.now at (state_at self.old.store subject.now.frame before) }
        ensures { IfOk result (λ handled. MatchBool handled (AreHandled subject.now self.old self.new at before) (HasNoTyping subject.now)) }
    {
        let rows = subject.code.catches.as_slice();
        for place in 0..rows.len() {
            let row = rows[place];
            if !covers(row, at) {
                continue;
            }
            let operands = self.caught[place];
            let reached = self.reach_handler(alloc, subject, row, operands, before)?;
            if !reached {
                return Ok(false);
            }
        }
        Ok(true)
    }

    /// The same, unless they have been merged into these handlers before. The positions behind are then known for which nothing more
    /// has to be done.
    fn handle(
        &mut self,
        alloc: Global,
        subject: &Subject,
        at: u32,
        before: State,
        quiet: &mut Quiet,
    ) -> Result<bool, AllocError>
        requires subject { IsSubject subject.now }
        requires inference { IsInference subject.now self.old }
        requires stands { Stands self.old.store subject.now.frame before }
        requires forced { IsForcedIn subject.now at (state_at self.old.store subject.now.frame before) }
        requires quiet { IsQuiet subject.now self.old quiet.old }
        ensures { IfOk result (λ handled. MatchBool handled (QuietHandled subject.now self.old self.new at before quiet.new) (HasNoTyping subject.now)) }
    {
        if is_quiet(*quiet, at, before.locals) {
            return Ok(true);
        }
        let handled = self.handle_rows(alloc, subject, at, before)?;
        if !handled {
            return Ok(false);
        }
        *quiet = around(subject.code.catches.as_slice(), at, before.locals);
        Ok(true)
    }

    /// Looks at the instruction of a position with the types before it. The answer is false where the method then has no typing.
    fn visit(
        &mut self,
        alloc: Global,
        subject: &Subject,
        at: u32,
        before: State,
        quiet: &mut Quiet,
        rows: &mut KnownRows,
    ) -> Result<bool, AllocError>
        requires subject { IsSubject subject.now }
        requires inference { IsInference subject.now self.old }
        requires known { known_of subject.now self.old at ≡ Some (state_at self.old.store subject.now.frame before) }
        requires stands { Stands self.old.store subject.now.frame before }
        requires quiet { IsQuiet subject.now self.old quiet.old }
        requires rows { AreKnown subject.now.program.now subject.now.method.0 rows.old.rows.items }
        ensures looked { IfOk result (λ looked. MatchBool looked (QuietLooked subject.now self.old self.new at before quiet.new) (HasNoTyping subject.now)) }
        ensures rows { OnOk result (AreKnown subject.now.program.now subject.now.method.0 rows.new.rows.items) }
    {
        let Ok(instruction) = decode(subject.code.bytes.as_slice(), at) else {
            return Ok(false);
        };
        let size = instruction.length;
        let operation = operation(&instruction);
        let followed = self.follow(alloc, subject, at, size, operation, before, rows)?;
        if !followed {
            return Ok(false);
        }
        self.handle(alloc, subject, at, before, quiet)
    }

    /// A position loses its mark where its types are as they were when its instruction was looked at.
    fn unmark(&mut self, subject: &Subject, at: u32, before: State)
        requires subject { IsSubject subject.now }
        requires inference { IsInference subject.now self.old }
        requires position { at < length subject.now.code.now.bytes }
        requires closed { state_of self.old at ≡ Some before → IsClosedIn subject.now self.old at before }
        ensures { Goes subject.now self.old self.new }
    {
        let Some(now) = self.states[at as usize] else {
            return;
        };
        if !is_same(now, before) {
            return;
        }
        self.marked.remove(&at);
    }

    /// Looks at a marked position, which loses its mark unless that raises its own types.
    fn step(
        &mut self,
        alloc: Global,
        subject: &Subject,
        at: u32,
        quiet: &mut Quiet,
        rows: &mut KnownRows,
    ) -> Result<bool, AllocError>
        requires subject { IsSubject subject.now }
        requires inference { IsInference subject.now self.old }
        requires position { at < length subject.now.code.now.bytes }
        requires quiet { IsQuiet subject.now self.old quiet.old }
        requires rows { AreKnown subject.now.program.now subject.now.method.0 rows.old.rows.items }
        ensures looked { IfOk result (λ looked. MatchBool looked (QuietGoes subject.now self.old self.new quiet.new) (HasNoTyping subject.now)) }
        ensures rows { OnOk result (AreKnown subject.now.program.now subject.now.method.0 rows.new.rows.items) }
    {
        let Some(before) = self.states[at as usize] else {
            self.marked.remove(&at);
            return Ok(true);
        };
        let looked = self.visit(alloc, subject, at, before, quiet, rows)?;
        if !looked {
            return Ok(false);
        }
        self.unmark(subject, at, before);
        Ok(true)
    }

    /// The least marked position from one on.
    fn next_marked(&self, from: u32) -> Option<u32>
        ensures { IsNext self.now.marked from result }
    {
        self.marked.range(from..).next().copied()
    }

    /// Looks at each marked position once, ascending. The answer is whether there was one, or `None` where the method has no typing.
    fn sweep(
        &mut self,
        alloc: Global,
        subject: &Subject,
        rows: &mut KnownRows,
    ) -> Result<Option<bool>, AllocError>
        requires subject { IsSubject subject.now }
        requires inference { IsInference subject.now self.old }
        requires rows { AreKnown subject.now.program.now subject.now.method.0 rows.old.rows.items }
        ensures swept { IfOk result (λ found. IsSwept subject.now self.new found) }
        ensures rows { OnOk result (AreKnown subject.now.program.now subject.now.method.0 rows.new.rows.items) }
    {
        let mut found = false;
        let mut quiet = none_quiet();
        let mut from = 0;
        while let Some(at) = self.next_marked(from) {
            found = true;
            let looked = self.step(alloc, subject, at, &mut quiet, rows)?;
            if !looked {
                return Ok(None);
            }
            from = at + 1;
        }
        Ok(Some(found))
    }
}

/// Whether a method has a typing: sweeps follow one another until nothing is marked. What is known rises with each sweep, so
/// that 2^64 of them are never needed; they would count as memory that lacks.
fn is_inferred(
    alloc: Global,
    subject: &Subject,
    inference: &mut Inference,
    rows: &mut KnownRows,
) -> Result<bool, AllocError>
    requires subject { IsSubject subject.now }
    requires inference { IsInference subject.now inference.old }
    requires rows { AreKnown subject.now.program.now subject.now.method.0 rows.old.rows.items }
    ensures { IfOk result (λ typed. MatchBool typed (IsCodeTyped subject.now.program.now subject.now.method.0 (Some subject.now.code.now)) (¬ IsCodeTyped subject.now.program.now subject.now.method.0 (Some subject.now.code.now))) }
{
    for _sweep in 0..u64::MAX {
        let swept = inference.sweep(alloc, subject, rows)?;
        let Some(found) = swept else {
            return Ok(false);
        };
        if !found {
            return Ok(true);
        }
    }
    Err(AllocError)
}

/// Whether a method that is asked has a typing.
fn has_typing(alloc: Global, subject: &Subject) -> Result<bool, AllocError>
    requires { IsSubject subject.now }
    ensures { IfOk result (λ typed. MatchBool typed (IsCodeTyped subject.now.program.now subject.now.method.0 (Some subject.now.code.now)) (¬ IsCodeTyped subject.now.program.now subject.now.method.0 (Some subject.now.code.now))) }
{
    let mut inference = Inference::new(alloc, subject)?;
    let mut rows = KnownRows::new(alloc, subject.program, subject.method);
    is_inferred(alloc, subject, &mut inference, &mut rows)
}

/// Whether the code of a method has a typing.
pub fn is_typed(
    alloc: Global,
    program: &Program,
    method: MethodId,
    code: &Code,
) -> Result<bool, AllocError>
    requires classes { HasClassNumbers program.now }
    requires ranked { IsRanked program.now }
    requires code { length code.now.bytes < 2 ^ 16 }
    ensures { IfOk result (λ typed. MatchBool typed (IsCodeTyped program.now method.0 (Some code.now)) (¬ IsCodeTyped program.now method.0 (Some code.now))) }
{
    if code.bytes.len() == 0 {
        return Ok(false);
    }
    let frame = Frame {
        locals: u32::from(code.max_locals),
        levels: levels_of(code.max_locals),
    };
    let subject = Subject {
        program,
        method,
        code,
        frame,
    };
    has_typing(alloc, &subject)
}
