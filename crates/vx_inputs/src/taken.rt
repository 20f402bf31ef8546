//! What is taken from a class file, whose bytes are then let go: its class, or with it what it says of its source.

ghost use Rattle.std.specs.Prelude.{◌≡◌, IfOk, List, Result, ℕ};
ghost use Rattle.vx_class.specs.File.{File};
ghost use Rattle.vx_class.specs.declared.class_file.ClassFile as file;
ghost use Rattle.vx_inputs.specs.Traced.{ArePartsOf, traced_of, with_source};
ghost use Rattle.vx_pool.specs.Reading.{Answers, Fault};

use std::alloc::{AllocError, Global};
use vx_class::{ClassFault, ClassFile, read_class};
use vx_lines::{LineTable, read_lines, read_source};
use vx_value::Name;

/// What is taken from a class file.
pub trait FromClassFile: Sized + Drop {
    /// What the bytes of a class file give, or the first check that fails.
    ghost given: { List ℕ → Result Self Fault };

    /// The class in it.
    ghost class: { Self → file.ClassFile };

    /// Takes it from the bytes of a class file.
    fn from_class_file(alloc: Global, bytes: &[u8]) -> Result<Self, ClassFault>
        ensures exact { Answers result (given bytes.now) }
        ensures found { IfOk result (λ taken. File bytes.now (class taken)) };
}

impl FromClassFile for ClassFile {
    ghost use Rattle.vx_class.specs.Class.{class_of};

    ghost given = { class_of };

    ghost class = { λ taken. taken };

    fn from_class_file(alloc: Global, bytes: &[u8]) -> Result<ClassFile, ClassFault> {
        read_class(alloc, bytes)
    }
}

/// A class, with the lines of its methods and the name of its source file, where it has one.
#[derive(Drop)]
pub struct Traced {
    pub class: ClassFile,
    pub lines: LineTable,
    pub file: Option<Name>,
}

/// A class that bytes hold, with what they say of its source.
fn with_source(alloc: Global, bytes: &[u8], class: ClassFile) -> Result<Traced, AllocError>
    requires { File bytes.now class }
    ensures { IfOk result (λ traced. traced ≡ with_source bytes.now class) }
{
    let lines = read_lines(alloc, bytes, &class)?;
    let file = read_source(alloc, bytes, &class)?;
    Ok(Traced { class, lines, file })
}

/// The class that the bytes of a class file hold, with what they say of its source, or the first check that fails.
pub fn class_with_source(alloc: Global, bytes: &[u8]) -> Result<Traced, ClassFault>
    ensures exact { Answers result (traced_of bytes.now) }
    ensures found { IfOk result (λ traced. File bytes.now traced.class) }
{
    let class = read_class(alloc, bytes)?;
    Ok(with_source(alloc, bytes, class)?)
}

/// Classes, and beside each the lines of its methods and the name of its source file.
#[derive(Drop)]
pub struct Parts {
    pub classes: Vec<ClassFile>,
    pub tables: Vec<LineTable>,
    pub files: Vec<Option<Name>>,
}

/// The classes, and beside them what is said of their sources. The only refusal is want of memory.
pub fn parted(alloc: Global, all: Vec<Traced>) -> Result<Parts, AllocError>
    ensures { IfOk result (ArePartsOf all.items) }
{
    let mut classes = Vec::new(alloc);
    let mut tables = Vec::new(alloc);
    let mut files = Vec::new(alloc);
    for traced in all {
        let Traced { class, lines, file } = traced;
        classes.push(class)?;
        tables.push(lines)?;
        files.push(file)?;
    }
    Ok(Parts {
        classes,
        tables,
        files,
    })
}

impl FromClassFile for Traced {
    ghost given = { traced_of };

    ghost class = { λ taken. taken.class };

    fn from_class_file(alloc: Global, bytes: &[u8]) -> Result<Traced, ClassFault> {
        class_with_source(alloc, bytes)
    }
}
