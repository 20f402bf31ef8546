//! An instruction where it stands.

use vx_class::Code;
use vx_link::Program;

/// An instruction where it stands: the program, the code of the method, and the length of the instruction.
#[derive(Drop)]
pub struct Site<'p> {
    pub program: &'p Program,
    pub code: &'p Code,
    /// In bytes.
    pub size: u32,
}
