//! What an instruction sees.

ghost use Rattle.vx_java.specs.Ids.{HasClassNumbers};

use std::alloc::Global;
use vx_class::Code;
use vx_link::Program;
use vx_pool::Pool;

/// A program, the code and the pool of the method on top, and the length of the instruction.
#[derive(Drop)]
pub struct Here<'a> {
    pub alloc: Global,
    pub program: &'a Program,
    pub code: &'a Code,
    pub pool: &'a Pool,
    pub size: u32,
    pub ghost classes: { HasClassNumbers program.now },
}
