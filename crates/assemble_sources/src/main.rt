//! Assembles the sources whose paths stand on the lines of the input, and tells of each whether the class file beside it
//! has the same bytes, or the line and the reason for which the source is refused.
#![tactic(auto)]

use std::{fs, io};
use vx_asm::{AsmFault, assemble};

fn write_answer(rt: &HostRuntime, path: &str) -> io::Result<()> {
    let source = fs::read(rt, format!(in rt.alloc(); "{path}.jasm")?.as_str())?;
    match assemble(rt.alloc(), &source) {
        Ok(bytes) => {
            let class = fs::read(rt, format!(in rt.alloc(); "{path}.class")?.as_str())?;
            let answer = if bytes.as_slice() == class.as_slice() {
                "same"
            } else {
                "other"
            };
            println!(rt; "{path} {answer}")
        }
        Err(AsmFault::Line { line, reason }) => println!(rt; "{path} line {line} reason {reason}"),
        Err(AsmFault::NoMemory) => println!(rt; "{path} no memory"),
    }
}

fn main(rt: HostRuntime) -> io::Result<()> {
    for line in rt.lines(rt.alloc()) {
        write_answer(&rt, line?.as_str())?;
    }
    Ok(())
}
