//! The positions to which jumps lead (JVMS 6.5).

ghost use Rattle.std.specs.Prelude.{◌≡◌};
ghost use Rattle.vx_arith.specs.Numbers.{branch_by, goto_target, jump_by, target_of};

use crate::spot::Spot;
use vx_group_states::Answer;
use vx_java::Operation;

/// The position that is so far from the opcode, or 0 before the code.
pub fn target_of(spot: &Spot, offset: i32) -> u32
    ensures { result ≡ target_of spot.now offset }
{
    let target = i64::from(spot.position) + i64::from(offset);
    if target < 0 { 0 } else { target as u32 }
}

/// The position to which a jump that takes no operand leads, or 0 for any other instruction.
pub fn goto_target(spot: &Spot, operation: Operation) -> u32
    ensures { result ≡ goto_target spot.now operation }
{
    match operation {
        Operation::Goto(offset) => target_of(spot, offset),
        _ => 0,
    }
}

/// Goes to the position that is so far from the opcode.
pub fn jump_by(spot: &Spot, offset: i32) -> Answer
    ensures { result ≡ jump_by spot.now offset }
{
    Answer::Jump(target_of(spot, offset))
}

/// Goes there, or past the instruction.
pub fn branch_by(spot: &Spot, taken: bool, offset: i32) -> Answer
    ensures { result ≡ branch_by spot.now taken offset }
{
    if taken {
        return jump_by(spot, offset);
    }
    Answer::Jump(spot.position + spot.size)
}
