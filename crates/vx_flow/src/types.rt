//! The types before and after an instruction.

use vx_list::Items;
use vx_types::VerType;

/// The types of a method's local variables, and of its operands with the top first.
#[derive(Drop)]
pub struct VerState {
    pub locals: Items<VerType>,
    pub operands: Items<VerType>,
}

/// What an instruction makes of the types before it.
#[derive(Drop)]
pub enum Flow {
    /// What it needs isn't there, operands before or after it don't fit in the method's greatest stack, or it leads out of the code.
    Refuses,
    /// The types after it, and the positions to which it leads, as the operation has them.
    Next(VerState, Items<u32>),
}
