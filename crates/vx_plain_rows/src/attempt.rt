//! The row of one attempt.

ghost use Rattle.std.specs.Prelude.{[], IfOk, Some, length, option_copied, ◌≡◌, ◌≤◌};
ghost use Rattle.vx_java.specs.Ids.{HasClassNumbers};
ghost use Rattle.vx_java.specs.Row.{row, row_at, row_in};
ghost use Rattle.vx_link.specs.Parts.{class_at, method_at};
ghost use Rattle.vx_plain.specs.Views.{state_of};
ghost use Rattle.vx_plain_here.specs.Rows.{ComesTo};
ghost use Rattle.vx_plain_numbers.specs.Family.{StandsInCode};
ghost use Rattle.vx_plain_tables.specs.Tables.{AreTables};

use crate::operations::row_of;
use std::alloc::Global;
use vx_class::Code;
use vx_java::decoding::operation;
use vx_java::parts::code_of;
use vx_link::Program;
use vx_list::Items;
use vx_opcode::{Instruction, decode};
use vx_plain::State;
use vx_plain_here::{Here, Made, illegal_at};
use vx_plain_tables::{Seen, Tables};
use vx_pool::Pool;
use vx_value::ClassId;

/// The code of the method on top, if it has any.
#[tactic(auto, unfolding(vx_plain::specs::Views::state_of))]
pub fn code_on_top<'a>(program: &'a Program, state: &State) -> Option<&'a Code>
    ensures { option_copied result ≡ (method_at program.now (state_of state.now).top.method).code }
{
    code_of(program, state.top.method)
}

/// The pool of a class; that of one that isn't there is empty.
pub fn pool_of<'a>(program: &'a Program, class: ClassId, none: &'a Pool) -> &'a Pool
    requires { none.now.entries ≡ [] }
    ensures { result.now ≡ (class_at program.now class.0).pool }
{
    match program.class(class) {
        Some(class) => &class.pool,
        None => none,
    }
}

/// The row of an instruction.
fn row_at<'a>(
    alloc: Global,
    program: &'a Program,
    tables: &'a Tables,
    state: &mut State,
    code: &'a Code,
    instruction: &Instruction,
) -> Made
    requires classes { HasClassNumbers program.now }
    requires tables { AreTables program.now tables.now }
    requires stands { StandsInCode (state_of state.old) }
    ensures { let s = state_of state.old in IfOk result (ComesTo (row_at program.now s code.now instruction.now) s (state_of state.new)) }
{
    let none = Pool {
        entries: Items::of(Vec::new(alloc)),
    };
    let class = state.current_class(program);
    let pool = pool_of(program, class, &none);
    let does = operation(instruction);
    let here = Here {
        alloc,
        program,
        code,
        pool,
        size: instruction.length,
    };
    let seen = Seen {
        here,
        tables,
        class,
    };
    row_of(&seen, state, does)
}

/// The row at the place of the frame on top in the code of its method.
fn row_in<'a>(
    alloc: Global,
    program: &'a Program,
    tables: &'a Tables,
    state: &mut State,
    code: &'a Code,
) -> Made
    requires classes { HasClassNumbers program.now }
    requires tables { AreTables program.now tables.now }
    requires few { length code.now.bytes ≤ 65535 }
    ensures { let s = state_of state.old in IfOk result (ComesTo (row_in program.now s (Some code.now)) s (state_of state.new)) }
{
    match decode(code.bytes.as_slice(), state.position()) {
        Ok(instruction) => row_at(alloc, program, tables, state, code, &instruction),
        Err(_) => illegal_at(alloc, program, state),
    }
}

/// The row of one attempt.
pub fn row<'a>(alloc: Global, program: &'a Program, tables: &'a Tables, state: &mut State) -> Made
    requires classes { HasClassNumbers program.now }
    requires tables { AreTables program.now tables.now }
    ensures { let s = state_of state.old in IfOk result (ComesTo (row program.now s) s (state_of state.new)) }
{
    match code_on_top(program, state) {
        Some(code) => row_in(alloc, program, tables, state, code),
        None => illegal_at(alloc, program, state),
    }
}
