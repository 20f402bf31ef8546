//! What an instruction makes of the types before it (JVMS 4.10.2.2).

ghost use Rattle.std.specs.Prelude.{◌≡◌, ◌<◌, ◌≤◌, ◌^◌, ◌++◌, IfOk, IfSome, None, OnErr, Some, if◌then◌else◌, length, option_map, slice_set};
ghost use Rattle.vx_java.specs.Ids.{HasClassNumbers};
ghost use Rattle.vx_java.specs.StackForms.{lower, upper};
ghost use Rattle.vx_java.specs.declared.operation.Sort.TheVariants as sort;
ghost use Rattle.vx_list.specs.Places.{item_or};
ghost use Rattle.vx_types.specs.Flow.{after, component, is_of, load, load_reference, locals_with, moved, moved_from, put, store_top, taken, types_reordered, without_half, words};
ghost use Rattle.vx_types.specs.declared.types.VerType.TheVariants as kind;
ghost use Rattle.vx_verify.specs.Moving.{HasCut, component_on_top, kind_of};
ghost use Rattle.vx_verify.specs.States.{AreTypes, HasLocals, HasOperands, HasStack, HasState, HasWords, IsRow, IsStack, IsStore, IsUntouched, Stands, locals_at, operands_at, readable_width, state_at, type_at, types_at};

use crate::store::{Store, TOP};
use std::alloc::{AllocError, Global};
use vx_java::{Shuffle, Sort};
use vx_link::Program;
use vx_list::GivenUp;
use vx_type_rows::{is_of, meets};
use vx_types::{Row, VerType, Want, element_copy};

/// The types of a method's local variables and operands at a position, by their numbers.
#[derive(Clone, Copy, PartialEq, Eq)]
pub struct State {
    pub locals: u32,
    pub operands: u32,
}

/// How many local variables a method has, and how many levels a tree of them.
#[derive(Clone, Copy)]
pub struct Frame {
    pub locals: u32,
    pub levels: u32,
}

/// The operands under those that are wanted, where each of these is there.
fn taken(store: &Store, program: &Program, wants: &[Want], operands: u32) -> Option<u32>
    requires classes { HasClassNumbers program.now }
    requires store { IsStore store.now }
    requires operands { IsStack store.now operands }
    ensures value { option_map (operands_at store.now) result ≡ taken program.now wants.now (operands_at store.now operands) }
    ensures within { IfSome result (IsStack store.now) }
{
    let mut under = operands;
    for want in wants {
        let Some((top, rest)) = store.chains.popped(under) else {
            return None;
        };
        if !meets(program, want, store.type_at(top)) {
            return None;
        }
        under = rest;
    }
    Some(under)
}

/// The type of a local variable; one that the method doesn't have cannot be read.
pub fn local(store: &Store, frame: Frame, locals: u32, place: u32) -> u32
    requires store { IsStore store.now }
    requires few { frame.levels ≤ 16 }
    requires locals { frame.locals ≤ 2 ^ frame.levels }
    requires row { IsRow store.now frame.levels locals }
    ensures value { type_at store.now result ≡ item_or (locals_at store.now frame locals) place kind.Top }
    ensures within { result < length store.now.types.items }
{
    if place >= frame.locals {
        return TOP;
    }
    store.trees.leaf(locals, frame.levels, place)
}

/// The local variables with one of another type, where the method has it. Want of memory leaves the store as it was.
pub fn with_local(
    store: &mut Store,
    frame: Frame,
    locals: u32,
    place: u32,
    item: u32,
) -> Result<u32, AllocError>
    requires store { IsStore store.old }
    requires few { frame.levels ≤ 16 }
    requires locals { frame.locals ≤ 2 ^ frame.levels }
    requires row { IsRow store.old frame.levels locals }
    requires item { item < length store.old.types.items }
    ensures ok { IfOk result (λ tree. HasLocals store.old store.new frame tree (slice_set (locals_at store.old frame locals) place (type_at store.old item))) }
    ensures err { OnErr result (IsUntouched store.old store.new) }
{
    if place >= frame.locals {
        return Ok(locals);
    }
    store.trees.with_leaf(locals, frame.levels, place, item)
}

/// The local variables in which the first half of a long cannot be read whose second half is overwritten. Want of memory leaves the store as it
/// was.
fn without_half(store: &mut Store, frame: Frame, locals: u32, place: u32) -> Result<u32, AllocError>
    requires store { IsStore store.old }
    requires few { frame.levels ≤ 16 }
    requires locals { frame.locals ≤ 2 ^ frame.levels }
    requires row { IsRow store.old frame.levels locals }
    ensures ok { IfOk result (λ tree. HasLocals store.old store.new frame tree (without_half (locals_at store.old frame locals) place)) }
    ensures err { OnErr result (IsUntouched store.old store.new) }
{
    if place == 0 {
        return Ok(locals);
    }
    let before = local(store, frame, locals, place - 1);
    if is_of(Sort::Long, store.type_at(before)) {
        return with_local(store, frame, locals, place - 1, TOP);
    }
    Ok(locals)
}

/// The local variables with a value put into one; a long takes the next one too, which cannot be read.
fn stored(
    store: &mut Store,
    frame: Frame,
    locals: u32,
    place: u16,
    item: u32,
) -> Result<u32, GivenUp>
    requires store { IsStore store.old }
    requires few { frame.levels ≤ 16 }
    requires locals { frame.locals ≤ 2 ^ frame.levels }
    requires row { IsRow store.old frame.levels locals }
    requires item { item < length store.old.types.items }
    ensures { IfOk result (λ tree. HasLocals store.old store.new frame tree (locals_with (locals_at store.old frame locals) place (type_at store.old item))) }
{
    let place = u32::from(place);
    let cleared = without_half(store, frame, locals, place)?;
    let put = with_local(store, frame, cleared, place, item)?;
    if is_of(Sort::Long, store.type_at(item)) {
        let both = with_local(store, frame, put, place + 1, TOP)?;
        return Ok(both);
    }
    Ok(put)
}

/// How many words a type takes, or `None` of one that cannot be read.
fn width(item: &VerType) -> Option<u32>
    ensures { result ≡ readable_width item.now }
{
    match item {
        VerType::Top => None,
        VerType::Long => Some(2),
        _ => Some(1),
    }
}

/// So many words off the top, the top first, and the operands under them.
fn words(
    alloc: Global,
    store: &Store,
    count: u32,
    operands: u32,
) -> Result<Option<(Vec<u32>, u32)>, AllocError>
    requires store { IsStore store.now }
    requires operands { IsStack store.now operands }
    ensures { IfOk result (λ found. HasWords store.now (option_map (λ pair. (pair.0.items, pair.1)) found) (words count (operands_at store.now operands))) }
{
    let mut tops = Vec::new(alloc);
    let mut under = operands;
    let mut left = count;
    while left > 0 {
        let Some((top, rest)) = store.chains.popped(under) else {
            return Ok(None);
        };
        let Some(width) = width(store.type_at(top)) else {
            return Ok(None);
        };
        if width > left {
            return Ok(None);
        }
        tops.push(top)?;
        under = rest;
        left -= width;
    }
    Ok(Some((tops, under)))
}

/// How many words a stack form works on, and how many under them.
fn upper(form: Shuffle) -> u32
    ensures { result ≡ upper form }
{
    match form {
        Shuffle::Pop2 | Shuffle::Dup2 | Shuffle::Dup2X1 | Shuffle::Dup2X2 => 2,
        _ => 1,
    }
}

fn lower(form: Shuffle) -> u32
    ensures { result ≡ lower form }
{
    match form {
        Shuffle::DupX1 | Shuffle::Dup2X1 | Shuffle::Swap => 1,
        Shuffle::DupX2 | Shuffle::Dup2X2 => 2,
        _ => 0,
    }
}

/// Operands, the top first, on others.
pub fn on_top(store: &mut Store, tops: &[u32], under: u32) -> Result<u32, GivenUp>
    requires store { IsStore store.old }
    requires tops { AreTypes store.old tops.now }
    requires under { IsStack store.old under }
    ensures { IfOk result (λ stack. HasStack store.old store.new stack (types_at store.old tops.now ++ operands_at store.old under)) }
{
    let mut operands = under;
    let mut left = tops.len();
    while left > 0 {
        left -= 1;
        operands = store.pushed(tops[left], operands)?;
    }
    Ok(operands)
}

/// What a stack form does with the operands on top: drops them, exchanges them, or also puts them under others.
#[derive(Clone, Copy)]
enum Kind {
    Drops,
    Exchanges,
    Copies,
}

fn kind_of(form: Shuffle) -> Kind
    ensures { result ≡ kind_of form }
{
    match form {
        Shuffle::Pop | Shuffle::Pop2 => Kind::Drops,
        Shuffle::Swap => Kind::Exchanges,
        _ => Kind::Copies,
    }
}

/// The operands of a stack form: those on top, those under them, and the rest.
#[derive(Drop)]
struct Cut {
    tops: Vec<u32>,
    under: Vec<u32>,
    rest: u32,
}

/// The operands of a stack form, whose upper ones were taken off.
fn cut_under(
    alloc: Global,
    store: &Store,
    form: Shuffle,
    tops: Vec<u32>,
    rest: u32,
) -> Result<Option<Cut>, AllocError>
    requires store { IsStore store.now }
    requires tops { AreTypes store.now tops.items }
    requires rest { IsStack store.now rest }
    ensures { IfOk result (λ found. HasCut store.now form found (moved_from form (types_at store.now tops.items, operands_at store.now rest))) }
{
    let found = words(alloc, store, lower(form), rest)?;
    match found {
        Some((under, rest)) => Ok(Some(Cut { tops, under, rest })),
        None => Ok(None),
    }
}

/// The operands of a stack form.
fn cut_off(
    alloc: Global,
    store: &Store,
    form: Shuffle,
    operands: u32,
) -> Result<Option<Cut>, AllocError>
    requires store { IsStore store.now }
    requires operands { IsStack store.now operands }
    ensures { IfOk result (λ found. HasCut store.now form found (moved form (operands_at store.now operands))) }
{
    let found = words(alloc, store, upper(form), operands)?;
    match found {
        Some((tops, rest)) => cut_under(alloc, store, form, tops, rest),
        None => Ok(None),
    }
}

/// The lower operands of a stack form on the upper ones.
fn swapped(store: &mut Store, tops: &[u32], under: &[u32], rest: u32) -> Result<u32, GivenUp>
    requires store { IsStore store.old }
    requires tops { AreTypes store.old tops.now }
    requires under { AreTypes store.old under.now }
    requires rest { IsStack store.old rest }
    ensures { IfOk result (λ stack. HasStack store.old store.new stack (types_at store.old under.now ++ (types_at store.old tops.now ++ operands_at store.old rest))) }
{
    let lower = on_top(store, tops, rest)?;
    on_top(store, under, lower)
}

/// The upper operands of a stack form on the lower ones, and under them once more.
fn copied(store: &mut Store, tops: &[u32], under: &[u32], rest: u32) -> Result<u32, GivenUp>
    requires store { IsStore store.old }
    requires tops { AreTypes store.old tops.now }
    requires under { AreTypes store.old under.now }
    requires rest { IsStack store.old rest }
    ensures { IfOk result (λ stack. HasStack store.old store.new stack (types_at store.old tops.now ++ (types_at store.old under.now ++ (types_at store.old tops.now ++ operands_at store.old rest)))) }
{
    let lower = on_top(store, tops, rest)?;
    let middle = on_top(store, under, lower)?;
    on_top(store, tops, middle)
}

/// The operands of a stack form in their new order.
fn reordered(
    store: &mut Store,
    form: Shuffle,
    tops: &[u32],
    under: &[u32],
    rest: u32,
) -> Result<u32, GivenUp>
    requires store { IsStore store.old }
    requires tops { AreTypes store.old tops.now }
    requires under { AreTypes store.old under.now }
    requires rest { IsStack store.old rest }
    ensures { IfOk result (λ stack. HasStack store.old store.new stack (types_reordered form (types_at store.old tops.now) (types_at store.old under.now) (operands_at store.old rest))) }
{
    match kind_of(form) {
        Kind::Drops => Ok(rest),
        Kind::Exchanges => swapped(store, tops, under, rest),
        Kind::Copies => copied(store, tops, under, rest),
    }
}

/// A stack form: values are dropped, change places, or are also put under others.
fn moved(
    alloc: Global,
    store: &mut Store,
    form: Shuffle,
    operands: u32,
) -> Result<Option<u32>, GivenUp>
    requires store { IsStore store.old }
    requires operands { IsStack store.old operands }
    ensures { IfOk result (λ made. HasOperands store.old store.new made (moved form (operands_at store.old operands))) }
{
    let found = cut_off(alloc, store, form, operands)?;
    match found {
        Some(cut) => {
            let stack = reordered(store, form, &cut.tops, &cut.under, cut.rest)?;
            Ok(Some(stack))
        }
        None => Ok(None),
    }
}

/// The component of an array of references; that of null is null.
fn component(alloc: Global, item: &VerType) -> Result<Option<VerType>, AllocError>
    ensures { IfOk result (λ found. found ≡ component item.now) }
{
    match item {
        VerType::Null => Ok(Some(VerType::Null)),
        VerType::Ref(dimensions, element) if *dimensions > 0 => {
            let element = element_copy(alloc, element)?;
            Ok(Some(VerType::Ref(*dimensions - 1, element)))
        }
        _ => Ok(None),
    }
}

/// An array of references is taken, and its component is put there.
fn load_component(alloc: Global, store: &mut Store, operands: u32) -> Result<Option<u32>, GivenUp>
    requires store { IsStore store.old }
    requires operands { IsStack store.old operands }
    ensures { IfOk result (λ made. HasOperands store.old store.new made (component_on_top (operands_at store.old operands))) }
{
    let Some((array, rest)) = store.chains.popped(operands) else {
        return Ok(None);
    };
    let found = component(alloc, store.type_at(array))?;
    match found {
        Some(item) => {
            let stack = store.pushed_type(alloc, &item, rest)?;
            Ok(Some(stack))
        }
        None => Ok(None),
    }
}

/// `aaload`: an index and an array of references are taken, and its component is put there.
fn load_reference(alloc: Global, store: &mut Store, operands: u32) -> Result<Option<u32>, GivenUp>
    requires store { IsStore store.old }
    requires operands { IsStack store.old operands }
    ensures { IfOk result (λ made. HasOperands store.old store.new made (load_reference (operands_at store.old operands))) }
{
    let Some((index, under)) = store.chains.popped(operands) else {
        return Ok(None);
    };
    if !is_of(Sort::Int, store.type_at(index)) {
        return Ok(None);
    }
    load_component(alloc, store, under)
}

/// A local variable that is of a sort, on the operands.
fn load(
    store: &mut Store,
    frame: Frame,
    sort: Sort,
    place: u16,
    state: State,
) -> Result<Option<State>, GivenUp>
    requires store { IsStore store.old }
    requires few { frame.levels ≤ 16 }
    requires locals { frame.locals ≤ 2 ^ frame.levels }
    requires state { Stands store.old frame state }
    ensures { IfOk result (λ made. HasState store.old store.new frame made (load sort (item_or (locals_at store.old frame state.locals) place kind.Top) (state_at store.old frame state))) }
{
    let top = local(store, frame, state.locals, u32::from(place));
    if !is_of(sort, store.type_at(top)) {
        return Ok(None);
    }
    let operands = store.pushed(top, state.operands)?;
    Ok(Some(State { operands, ..state }))
}

/// An operand that is of a sort, in a local variable.
fn store_top(
    store: &mut Store,
    frame: Frame,
    sort: Sort,
    place: u16,
    state: State,
) -> Result<Option<State>, GivenUp>
    requires store { IsStore store.old }
    requires few { frame.levels ≤ 16 }
    requires locals { frame.locals ≤ 2 ^ frame.levels }
    requires state { Stands store.old frame state }
    ensures { IfOk result (λ made. HasState store.old store.new frame made (store_top sort place (locals_at store.old frame state.locals) (operands_at store.old state.operands))) }
{
    let Some((top, operands)) = store.chains.popped(state.operands) else {
        return Ok(None);
    };
    if !is_of(sort, store.type_at(top)) {
        return Ok(None);
    }
    let locals = stored(store, frame, state.locals, place, top)?;
    Ok(Some(State { locals, operands }))
}

/// Puts a value of a type there, or none.
fn put_given(
    alloc: Global,
    store: &mut Store,
    given: &Option<VerType>,
    under: u32,
) -> Result<u32, GivenUp>
    requires store { IsStore store.old }
    requires under { IsStack store.old under }
    ensures { IfOk result (λ stack. HasStack store.old store.new stack (put given.now (operands_at store.old under))) }
{
    match given {
        Some(item) => store.pushed_type(alloc, item, under),
        None => Ok(under),
    }
}

/// Takes what is wanted, and puts a value of a type there, or none.
fn exchanged(
    alloc: Global,
    store: &mut Store,
    program: &Program,
    wants: &[Want],
    given: &Option<VerType>,
    operands: u32,
) -> Result<Option<u32>, GivenUp>
    requires classes { HasClassNumbers program.now }
    requires store { IsStore store.old }
    requires operands { IsStack store.old operands }
    ensures { IfOk result (λ made. HasOperands store.old store.new made (option_map (put given.now) (taken program.now wants.now (operands_at store.old operands)))) }
{
    match taken(store, program, wants, operands) {
        Some(under) => {
            let stack = put_given(alloc, store, given, under)?;
            Ok(Some(stack))
        }
        None => Ok(None),
    }
}

/// The state with other operands, if there are any.
fn with_operands(state: State, operands: Option<u32>) -> Option<State>
    ensures { result ≡ option_map (λ these. record { locals = state.locals; operands = these }) operands }
{
    let operands = operands?;
    Some(State { operands, ..state })
}

/// The state where it has what is wanted.
fn left(store: &Store, program: &Program, wants: &[Want], state: State) -> Option<State>
    requires classes { HasClassNumbers program.now }
    requires store { IsStore store.now }
    requires operands { IsStack store.now state.operands }
    ensures { result ≡ option_map (λ rest. state) (taken program.now wants.now (operands_at store.now state.operands)) }
{
    match taken(store, program, wants, state.operands) {
        Some(_) => Some(state),
        None => None,
    }
}

/// The state where a type is that of an int.
fn if_int(store: &Store, item: u32, state: State) -> Option<State>
    requires { item < length store.now.types.items }
    ensures { result ≡ (if is_of sort.Int (type_at store.now item) then Some state else None) }
{
    if is_of(Sort::Int, store.type_at(item)) {
        return Some(state);
    }
    None
}

/// What a row makes of a state, or `None` where the state hasn't what it needs.
pub fn after(
    alloc: Global,
    store: &mut Store,
    program: &Program,
    frame: Frame,
    row: &Row,
    state: State,
) -> Result<Option<State>, GivenUp>
    requires classes { HasClassNumbers program.now }
    requires store { IsStore store.old }
    requires few { frame.levels ≤ 16 }
    requires locals { frame.locals ≤ 2 ^ frame.levels }
    requires state { Stands store.old frame state }
    ensures { IfOk result (λ made. HasState store.old store.new frame made (after program.now row.now (state_at store.old frame state))) }
{
    match row {
        Row::Refused => Ok(None),
        Row::Ends => Ok(Some(state)),
        Row::Leaves(wants) => Ok(left(store, program, wants.as_slice(), state)),
        Row::Takes(wants, given) => {
            let wants = wants.as_slice();
            let operands = exchanged(alloc, store, program, wants, given, state.operands)?;
            Ok(with_operands(state, operands))
        }
        Row::Load(sort, place) => load(store, frame, *sort, *place, state),
        Row::Store(sort, place) => store_top(store, frame, *sort, *place, state),
        Row::Increase(place) => {
            let item = local(store, frame, state.locals, u32::from(*place));
            Ok(if_int(store, item, state))
        }
        Row::Move(form) => {
            let operands = moved(alloc, store, *form, state.operands)?;
            Ok(with_operands(state, operands))
        }
        Row::LoadReference => {
            let operands = load_reference(alloc, store, state.operands)?;
            Ok(with_operands(state, operands))
        }
    }
}
