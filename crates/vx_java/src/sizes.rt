//! How long the instructions of a code are, and how much room its operands have.

ghost use Rattle.std.specs.Prelude.{◌≡◌, ◌≤◌, ◌<◌, ◌+◌, ◌^◌, length};
ghost use Rattle.vx_java.specs.Returns.{instruction_size, max_stack};
ghost use Rattle.vx_link.specs.Parts.{method_at};
ghost use Rattle.vx_opcode.specs.Decode.{instruction_at};

use crate::parts::code_of;
use vx_class::Code;
use vx_link::Program;
use vx_opcode::decode;
use vx_value::MethodId;

/// The length of the instruction at a position of a code, which is within the code; where none stands there, 0.
pub fn size_in(code: &Code, position: u32) -> u32
    requires { length code.now.bytes ≤ 65535 }
    ensures size { result ≡ instruction_size (instruction_at code.now.bytes position) }
    ensures within { position + result < 2 ^ 32 }
{
    match decode(code.bytes.as_slice(), position) {
        Ok(instruction) => instruction.length,
        Err(_fault) => 0,
    }
}

/// How many words the operands of a method may take; those of one without code none.
pub fn room_of(program: &Program, method: MethodId) -> u16
    ensures { result ≡ max_stack (method_at program.now method.0).code }
{
    match code_of(program, method) {
        Some(code) => code.max_stack,
        None => 0,
    }
}
