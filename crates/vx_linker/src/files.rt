//! The class files of a folder and of the core, found by their names through tables that are filled once.

ghost use Rattle.std.specs.Prelude.{◌≡◌, ◌+◌, ◌++◌, [], IfOk, slice_get};
ghost use Rattle.std.specs.Option.{option_copied};
ghost use Rattle.vx_names.specs.Names.{place_of};
ghost use Rattle.vx_link.specs.Faults.{file_named, twice};
ghost use Rattle.vx_link.specs.Tables.{names_of, HaveOwnNames, twice_among};
ghost use Rattle.vx_linker.specs.Answers.{Judges};

use crate::class_numbers::ClassNumbers;
use std::alloc::{AllocError, Global};
use vx_class::ClassFile;
use vx_link::LinkFault;
use vx_link::class_names::name_of;
use vx_names::NameTable;
use vx_value::Name;

/// The class files with tables of their names.
#[derive(Drop)]
pub struct Files {
    pub classes: Vec<ClassFile>,
    pub core: Vec<ClassFile>,
    pub numbers: ClassNumbers,
    ghost folder_named: { numbers.folder ≡ names_of classes.items },
    ghost core_named: { numbers.core ≡ names_of core.items },
}

fn names_of_core(alloc: Global, core: &[ClassFile]) -> Result<NameTable, AllocError>
    requires { HaveOwnNames core.now }
    ensures { IfOk result (λ names. names ≡ names_of core.now) }
{
    let mut names = NameTable::new(alloc);
    for class in core {
        names.add(Vec::from_slice(alloc, name_of(class))?)?;
    }
    Ok(names)
}

fn names_of_folder(
    alloc: Global,
    core: &NameTable,
    classes: &[ClassFile],
) -> Result<NameTable, LinkFault>
    ensures judges { Judges result (twice_among core.now [] classes.now) }
    ensures names { IfOk result (λ names. names ≡ names_of classes.now) }
{
    let mut names = NameTable::new(alloc);
    for class in classes {
        let name = name_of(class);
        if core.has(name) || !names.add(Vec::from_slice(alloc, name)?)? {
            return Err(LinkFault::Twice {
                class: Name::of(alloc, name)?,
            });
        }
    }
    Ok(names)
}

impl Files {
    /// The class files of a folder and of the core, unless a class has the name of an earlier class or of a core class.
    pub fn new(
        alloc: Global,
        classes: Vec<ClassFile>,
        core: Vec<ClassFile>,
    ) -> Result<Files, LinkFault>
        requires { HaveOwnNames core.items }
        ensures judges { Judges result (twice core.items classes.items) }
        ensures classes { IfOk result (λ files. files.classes ≡ classes) }
        ensures core { IfOk result (λ files. files.core ≡ core) }
    {
        let core_names = names_of_core(alloc, &core)?;
        match names_of_folder(alloc, &core_names, &classes) {
            Ok(folder_names) => Ok(Files {
                classes,
                core,
                numbers: ClassNumbers {
                    folder: folder_names,
                    core: core_names,
                },
            }),
            Err(fault) => Err(fault),
        }
    }

    /// The place of a name among the names of the folder's classes and then of the core classes.
    pub fn place_of(&self, name: &[u8]) -> Option<usize>
        ensures { result ≡ place_of (names_of (self.now.classes.items ++ self.now.core.items)) name.now }
    {
        self.numbers.place_of(name)
    }

    /// The class file of a place among the folder's and then the core classes.
    pub fn at(&self, place: usize) -> Option<&ClassFile>
        ensures { option_copied result ≡ slice_get (self.now.classes.items ++ self.now.core.items) place }
    {
        match self.classes.get(place) {
            Some(class) => Some(class),
            None => self.core.get(place - self.classes.len()),
        }
    }

    fn in_folder(&self, place: usize) -> Option<&ClassFile>
        ensures { option_copied result ≡ slice_get self.now.classes.items place }
    {
        self.classes.get(place)
    }

    /// The class file of a name, the first where there are several.
    pub fn named(&self, name: &[u8]) -> Option<&ClassFile>
        ensures { option_copied result ≡ file_named (self.now.classes.items ++ self.now.core.items) name.now }
    {
        match self.place_of(name) {
            Some(place) => self.at(place),
            None => None,
        }
    }

    /// The class file of a name in the folder.
    pub fn named_in_folder(&self, name: &[u8]) -> Option<&ClassFile>
        ensures { option_copied result ≡ file_named self.now.classes.items name.now }
    {
        match self.numbers.folder.place_of(name) {
            Some(place) => self.in_folder(place),
            None => None,
        }
    }
}
