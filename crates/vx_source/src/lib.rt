//! The lines of an assembler source, and what each of them says.
#![tactic(auto)]

mod lines;
mod operands;
mod saying;
mod statement;

pub use lines::{Said, Source, SourceLine, read_source};
pub use statement::{
    Case, CatchLine, ClassLine, FieldLine, Instruction, Lookup, Member, MethodLine, Operand, Room,
    Statement, Table, Value,
};
