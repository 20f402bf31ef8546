//! Reads the class files whose paths stand on the lines of the input, and writes what each has: the path, the major
//! version, how many pool places, interfaces, fields, methods and methods with code there are, and whether it is the same class
//! after it is written and read again.
#![tactic(auto)]

use std::alloc::Global;
use std::{fs, io};
use vx_class::{ClassFault, ClassFile, read_class};
use vx_writer::write_class;

/// How many methods have code.
fn codes(class: &ClassFile) -> usize {
    let methods = class.methods.as_slice();
    methods
        .iter()
        .filter(|method| method.code.is_some())
        .count()
}

/// Whether a class that is written and read again is the same.
fn is_read_again(alloc: Global, class: &ClassFile) -> Result<bool, ClassFault> {
    let bytes = write_class(alloc, class)?;
    let again = read_class(alloc, bytes.as_slice())?;
    let before = format!(in alloc; "{class:?}")?;
    let after = format!(in alloc; "{again:?}")?;
    Ok(before == after)
}

fn show(rt: &impl Print, alloc: Global, path: &str, class: &ClassFile) -> io::Result<()> {
    let major = class.major;
    let places = class.pool.entries.len();
    let interfaces = class.interfaces.len();
    let fields = class.fields.len();
    let methods = class.methods.len();
    let codes = codes(class);
    let again = match is_read_again(alloc, class) {
        Ok(true) => "same",
        Ok(false) => "other",
        Err(_) => "unread",
    };
    println!(rt; "{path} {major} {places} {interfaces} {fields} {methods} {codes} {again}")
}

fn main(rt: HostRuntime) -> io::Result<()> {
    for line in rt.lines(rt.alloc()) {
        let path = line?;
        let bytes = fs::read(&rt, path.as_str())?;
        match read_class(rt.alloc(), &bytes) {
            Ok(class) => show(&rt, rt.alloc(), path.as_str(), &class)?,
            Err(ClassFault::Bad { at, reason }) => println!(rt; "{path} refused {at} {reason}")?,
            Err(ClassFault::NoMemory) => println!(rt; "{path} no memory")?,
        }
    }
    Ok(())
}
