//! One instruction at types that a caller names.

ghost use Rattle.std.specs.List.{list_all};
ghost use Rattle.std.specs.Prelude.{◌≡◌, ◌+◌, ◌<◌, ◌≤◌, ◌^◌, IfOk, length, nat_le, nat_lt, option_map, true};
ghost use Rattle.vx_flow.specs.Flowing.{flow_at, flow_in, plain, plain_flow};
ghost use Rattle.vx_java.specs.Ids.{HasClassNumbers};
ghost use Rattle.vx_link.specs.Parts.{method_at};
ghost use Rattle.vx_types.specs.Flow.{EntriesFit, after, flow_by, settled, stack_size, targets_by, targets_of, width};
ghost use Rattle.vx_types.specs.Rows.{row_of};
ghost use Rattle.vx_verify.specs.States.{IsStore};
ghost use Rattle.vx_verify.specs.Verdict.{has_short_code};

use crate::numbering::numbered;
use crate::reading::state_of;
use crate::types::{Flow, VerState};
use std::alloc::{AllocError, Global};
use vx_class::Code;
use vx_java::Operation;
use vx_java::decoding::operation;
use vx_java::parts::code_of;
use vx_link::Program;
use vx_list::{GivenUp, Items};
use vx_opcode::decode;
use vx_type_rows::{row_of, targets_of};
use vx_types::{Row, VerType};
use vx_value::MethodId;
use vx_verify::rows::{Frame, after};
use vx_verify::start::levels_of;
use vx_verify::store::Store;

/// How many words a type takes; one that cannot be read may be a long.
fn width(item: &VerType) -> u16
    ensures { result ≡ width item.now }
{
    match item {
        VerType::Long | VerType::Top => 2,
        _ => 1,
    }
}

/// Whether operands fit in so many words.
fn fit_in(operands: &[VerType], words: u16) -> bool
    ensures { result ≡ nat_le (stack_size operands.now) words }
{
    let mut left = words;
    for item in operands {
        let width = width(item);
        if width > left {
            return false;
        }
        left -= width;
    }
    true
}

/// Whether a position lies in a code of so many bytes.
fn is_inside(position: u32, size: usize) -> bool
    ensures { result ≡ nat_lt position size }
{
    (position as usize) < size
}

/// Whether positions lie in a code of so many bytes.
fn are_inside(positions: &[u32], size: usize) -> bool
    ensures { result ≡ list_all (λ position. nat_lt position size) positions.now }
{
    positions.iter().all(|position| is_inside(*position, size))
}

/// The positions to which an operation with a row leads: none where the run or the method ends.
fn led_to(
    alloc: Global,
    code: &[u8],
    at: u32,
    size: u32,
    operation: Operation,
    row: &Row,
) -> Result<Vec<u32>, AllocError>
    requires short { length code.now < 2 ^ 16 }
    requires within { at + size ≤ length code.now }
    requires entries { EntriesFit code.now operation }
    ensures { IfOk result (λ targets. targets.items ≡ targets_by row.now (targets_of code.now at size operation)) }
{
    match row {
        Row::Ends | Row::Leaves(_) => Ok(Vec::new(alloc)),
        _ => targets_of(alloc, code, at, size, operation),
    }
}

/// What a row makes of a state by the numbers of a store, or `None` where the state hasn't what it needs.
fn made_in(
    alloc: Global,
    store: &mut Store,
    program: &Program,
    frame: Frame,
    row: &Row,
    before: &VerState,
) -> Result<Option<VerState>, GivenUp>
    requires classes { HasClassNumbers program.now }
    requires store { IsStore store.old }
    requires few { frame.levels ≤ 16 }
    requires room { frame.locals ≤ 2 ^ frame.levels }
    requires locals { length before.now.locals ≡ frame.locals }
    ensures { IfOk result (λ made. option_map plain made ≡ after program.now row.now (plain before.now)) }
{
    let state = numbered(alloc, store, frame, before)?;
    let found = after(alloc, store, program, frame, row, state)?;
    match found {
        Some(state) => {
            let made = state_of(alloc, store, frame, state)?;
            Ok(Some(made))
        }
        None => Ok(None),
    }
}

/// What a row makes of a state, or `None` where the state hasn't what it needs.
fn made_by(
    alloc: Global,
    program: &Program,
    row: &Row,
    before: &VerState,
) -> Result<Option<VerState>, AllocError>
    requires classes { HasClassNumbers program.now }
    requires few { length before.now.locals < 2 ^ 16 }
    ensures { IfOk result (λ made. option_map plain made ≡ after program.now row.now (plain before.now)) }
{
    let count = before.locals.len() as u16;
    let frame = Frame {
        locals: u32::from(count),
        levels: levels_of(count),
    };
    let mut store = Store::new(alloc)?;
    let made = made_in(alloc, &mut store, program, frame, row, before)?;
    Ok(made)
}

/// What stands after an instruction, where operands fit in the method's greatest stack and positions lie in its code.
fn settled(code: &Code, targets: Vec<u32>, made: Option<VerState>) -> Flow
    ensures { plain_flow result ≡ settled code.now targets.items (option_map plain made) }
{
    let Some(state) = made else {
        return Flow::Refuses;
    };
    if !fit_in(state.operands.as_slice(), code.max_stack) {
        return Flow::Refuses;
    }
    if !are_inside(&targets, code.bytes.len()) {
        return Flow::Refuses;
    }
    let to = Items::of(targets);
    Flow::Next(state, to)
}

/// What an operation makes of the types before it.
fn flow_by(
    alloc: Global,
    program: &Program,
    method: MethodId,
    code: &Code,
    at: u32,
    size: u32,
    operation: Operation,
    before: &VerState,
) -> Result<Flow, AllocError>
    requires classes { HasClassNumbers program.now }
    requires short { length code.now.bytes < 2 ^ 16 }
    requires within { at + size ≤ length code.now.bytes }
    requires entries { EntriesFit code.now.bytes operation }
    requires few { length before.now.locals < 2 ^ 16 }
    ensures { IfOk result (λ flow. plain_flow flow ≡ flow_by program.now code.now at size operation (row_of program.now method.0 operation) (plain before.now)) }
{
    let row = row_of(alloc, program, method, operation)?;
    let targets = led_to(alloc, code.bytes.as_slice(), at, size, operation, &row)?;
    let made = made_by(alloc, program, &row, before)?;
    Ok(settled(code, targets, made))
}

/// What the instruction of a position makes of the types before it.
fn flow_at(
    alloc: Global,
    program: &Program,
    method: MethodId,
    code: &Code,
    position: u32,
    before: &VerState,
) -> Result<Flow, AllocError>
    requires classes { HasClassNumbers program.now }
    requires short { length code.now.bytes < 2 ^ 16 }
    requires few { length before.now.locals < 2 ^ 16 }
    ensures { IfOk result (λ flow. plain_flow flow ≡ flow_at program.now method.0 code.now position (plain before.now)) }
{
    if !fit_in(before.operands.as_slice(), code.max_stack) {
        return Ok(Flow::Refuses);
    }
    let Ok(instruction) = decode(code.bytes.as_slice(), position) else {
        return Ok(Flow::Refuses);
    };
    let size = instruction.length;
    let operation = operation(&instruction);
    flow_by(
        alloc, program, method, code, position, size, operation, before,
    )
}

/// What the instruction at a position of a method makes of the types before it, and the positions to which it leads. It is refused where
/// the state hasn't what the instruction needs, where its operands before or after it don't fit in the method's greatest stack, where it
/// leads out of the code, and where no whole instruction stands there (JVMS 4.10.1.9, 4.10.2.2). Memory may run out.
pub fn flow(
    alloc: Global,
    program: &Program,
    method: MethodId,
    position: u32,
    before: &VerState,
) -> Result<Flow, AllocError>
    requires classes { HasClassNumbers program.now }
    requires codes { list_all (λ m. has_short_code m.code) program.now.methods ≡ true }
    requires few { length before.now.locals < 2 ^ 16 }
    ensures { IfOk result (λ flow. plain_flow flow ≡ flow_in program.now method.0 (method_at program.now method.0).code position (plain before.now)) }
{
    match code_of(program, method) {
        Some(code) => flow_at(alloc, program, method, code, position, before),
        None => Ok(Flow::Refuses),
    }
}
