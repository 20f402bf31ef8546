//! Native methods, carried out at the call where the frame on top stands.

ghost use Rattle.std.specs.Prelude.{◌≡◌, ◌≤◌, [], IfOk, length, unwrap_or};
ghost use Rattle.vx_java.specs.Ids.{HasClassNumbers};
ghost use Rattle.vx_java.specs.Natives.{carried_out, native, no_code};
ghost use Rattle.vx_java.specs.Returns.{instruction_size};
ghost use Rattle.vx_link.specs.Parts.{method_at, no_method};
ghost use Rattle.vx_opcode.specs.Decode.{instruction_at};
ghost use Rattle.vx_plain.specs.Views.{state_of};
ghost use Rattle.vx_plain_here.specs.Rows.{ComesTo, here_in};
ghost use Rattle.vx_plain_tables.specs.Tables.{AreTables};

use std::alloc::Global;
use vx_class::Code;
use vx_link::{AccessFlags, LinkedMethod, Program, SharedName};
use vx_list::Items;
use vx_opcode::decode;
use vx_plain::State;
use vx_plain_here::{Here, Made};
use vx_plain_natives::carry_out;
use vx_plain_rows::{code_on_top, pool_of};
use vx_plain_tables::{Seen, Tables};
use vx_pool::Pool;
use vx_value::{ClassId, MethodId};

/// The code of the method on top; a method without code has none that could stand at a call.
fn code_at_call<'a>(program: &'a Program, state: &State, none: &'a Code) -> &'a Code
    requires { none.now ≡ no_code }
    ensures { result.now ≡ unwrap_or (method_at program.now (state_of state.now).top.method).code no_code }
{
    match code_on_top(program, state) {
        Some(code) => code,
        None => none,
    }
}

/// How long the instruction at a place of a code is; 0 where there is none.
fn size_at(code: &Code, position: u32) -> u32
    requires { length code.now.bytes ≤ 65535 }
    ensures { result ≡ instruction_size (instruction_at code.now.bytes position) }
{
    match decode(code.bytes.as_slice(), position) {
        Ok(instruction) => instruction.length,
        Err(_) => 0,
    }
}

/// The method of a number.
fn method_of<'a>(program: &'a Program, method: MethodId, none: &'a LinkedMethod) -> &'a LinkedMethod
    requires { none.now ≡ no_method }
    ensures { result.now ≡ method_at program.now method.0 }
{
    match program.method(method) {
        Some(method) => method,
        None => none,
    }
}

/// Carries out the native method of a number. One that the program doesn't have has no number among the native methods.
fn carry_out_by(seen: &Seen<'_>, state: &mut State, method: MethodId) -> Made
    ensures { let s = state_of state.old in let h = here_in seen.now.here s in IfOk result (ComesTo (carried_out h (method_at h.program method.0)) s (state_of state.new)) }
{
    let nothing = SharedName::of(seen.here.alloc, &[])?;
    let none = LinkedMethod {
        class: ClassId(0),
        name: nothing.share()?,
        descriptor: nothing,
        flags: AccessFlags(0),
        code: None,
        native: 0,
    };
    let signature = seen.signature(method)?;
    let method = method_of(seen.here.program, method, &none);
    carry_out(
        &seen.here,
        state,
        method,
        signature.arguments.as_slice(),
        signature.result,
    )
}

/// Carries out a native method, whose arguments still stand on top, at the call where the frame on top stands.
pub(crate) fn native<'a>(
    alloc: Global,
    program: &'a Program,
    tables: &'a Tables,
    state: &mut State,
    method: MethodId,
) -> Made
    requires classes { HasClassNumbers program.now }
    requires tables { AreTables program.now tables.now }
    ensures { let s = state_of state.old in IfOk result (ComesTo (native program.now s method.0) s (state_of state.new)) }
{
    let no_pool = Pool {
        entries: Items::of(Vec::new(alloc)),
    };
    let no_code = Code {
        max_stack: 0,
        max_locals: 0,
        bytes: Items::of(Vec::new(alloc)),
        catches: Items::of(Vec::new(alloc)),
    };
    let class = state.current_class(program);
    let code = code_at_call(program, state, &no_code);
    let pool = pool_of(program, class, &no_pool);
    let position = state.position();
    let size = size_at(code, position);
    let here = Here {
        alloc,
        program,
        code,
        pool,
        size,
    };
    let seen = Seen {
        here,
        tables,
        class,
    };
    carry_out_by(&seen, state, method)
}
