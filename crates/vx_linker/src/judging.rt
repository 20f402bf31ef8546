//! The first fault of a folder's classes (JVMS 5.3, 5.4), a rule after the other.

ghost use Rattle.std.specs.Prelude.{◌≡◌, ◌++◌, ◌&&◌, IfOk, OnOk, map, option_to_list};
ghost use Rattle.std.specs.List.{list_all, list_any, filter_map};
ghost use Rattle.vx_link.specs.Faults.{super_fits, interfaces_fit, super_is_final, super_name, bad_super, is_own_ancestor, cycle, has_place, no_option, is_option_field, is_main, no_main, passes, file_named, is_interface_file};
ghost use Rattle.vx_link.specs.Names.{class_name};
ghost use Rattle.vx_link.specs.Tables.{names_of, parent_places, place_of_class, all_parents, later_fault};
ghost use Rattle.vx_names.specs.Names.{place_of};
ghost use Rattle.vx_linker.specs.Answers.{Judges};

use crate::files::Files;
use bitflags::Flags;
use std::alloc::{AllocError, Global};
use vx_ancestry::Ancestry;
use vx_class::{ClassFile, Field, Method};
use vx_link::class_names::{class_name, is_interface, name_of, super_name, utf8};
use vx_link::{AccessFlags, LinkFault};
use vx_list::Items;
use vx_model::OptionField;
use vx_value::Name;

const OBJECT: &[u8] = b"java/lang/Object";

/// The descriptor of a boolean.
pub const BOOLEAN: &[u8] = b"Z";

/// The name of the method with which a run begins.
pub const MAIN: &[u8] = b"main";

/// Its descriptor.
pub const MAIN_DESCRIPTOR: &[u8] = b"([Ljava/lang/String;)V";

/// Whether the superclass of a class is there and no interface, and that of an interface is Object.
fn super_fits(files: &Files, class: &ClassFile) -> bool
    ensures { result ≡ super_fits (files.now.classes.items ++ files.now.core.items) class.now (super_name class.now) }
{
    let Some(name) = super_name(class) else {
        return true;
    };
    match files.named(name) {
        Some(superclass) => {
            !is_interface(superclass) && (!is_interface(class) || name == OBJECT)
        }
        None => false,
    }
}

fn interface_fits(files: &Files, class: &ClassFile, index: u16) -> bool
    ensures { result ≡ passes is_interface_file (file_named (files.now.classes.items ++ files.now.core.items) (class_name class.now.pool index)) }
{
    match files.named(class_name(&class.pool, index)) {
        Some(interface) => is_interface(interface),
        None => false,
    }
}

fn all_fit(files: &Files, class: &ClassFile) -> bool
    ensures { result ≡ list_all (λ index. passes is_interface_file (file_named (files.now.classes.items ++ files.now.core.items) (class_name class.now.pool index))) class.now.interfaces }
{
    let indices = class.interfaces.as_slice();
    indices
        .iter()
        .all(|index| interface_fits(files, class, *index))
}

/// Whether the superinterfaces of a class are there and are interfaces.
fn interfaces_fit(files: &Files, class: &ClassFile) -> bool
    ensures { result ≡ interfaces_fit (files.now.classes.items ++ files.now.core.items) class.now }
{
    all_fit(files, class)
}

fn super_is_final(files: &Files, class: &ClassFile) -> bool
    ensures { result ≡ super_is_final (files.now.classes.items ++ files.now.core.items) (super_name class.now) }
{
    let Some(name) = super_name(class) else {
        return false;
    };
    match files.named(name) {
        Some(superclass) => AccessFlags(superclass.flags).contains(AccessFlags::FINAL),
        None => false,
    }
}

/// Whether a field of a class has a name, and an option can have it: it is static, as all fields of an interface are, and of type `Z`.
pub fn is_option_field(class: &ClassFile, name: &[u8], field: Field) -> bool
    ensures { result ≡ is_option_field class.now name.now field }
{
    utf8(&class.pool, field.name) == name
        && utf8(&class.pool, field.descriptor) == BOOLEAN
        && (AccessFlags(field.flags).contains(AccessFlags::STATIC) || is_interface(class))
}

fn has_option_field(class: &ClassFile, name: &[u8]) -> bool
    ensures { result ≡ list_any (is_option_field class.now name.now) class.now.fields }
{
    let fields = class.fields.as_slice();
    fields
        .iter()
        .any(|field| is_option_field(class, name, *field))
}

fn has_place(files: &Files, option: &OptionField) -> bool
    ensures { result ≡ has_place files.now.classes.items option.now.place }
{
    match &option.place {
        Some(place) => match files.named_in_folder(place.class.bytes()) {
            Some(class) => has_option_field(class, place.field.bytes()),
            None => false,
        },
        None => true,
    }
}

fn is_main(class: &ClassFile, method: &Method) -> bool
    ensures { result ≡ is_main class.now method.now }
{
    let flags = AccessFlags(method.flags);
    utf8(&class.pool, method.name) == MAIN
        && utf8(&class.pool, method.descriptor) == MAIN_DESCRIPTOR
        && flags.contains(AccessFlags::PUBLIC)
        && flags.contains(AccessFlags::STATIC)
        && method.code.is_some()
}

/// Whether a class has a `main` that can be run: one that is public and static and has code (JVMS 5.2).
pub fn has_main_method(class: &ClassFile) -> bool
    ensures { result ≡ list_any (is_main class.now) class.now.methods }
{
    let methods = class.methods.as_slice();
    methods.iter().any(|method| is_main(class, method))
}

fn has_main(files: &Files, main: &[u8]) -> bool
    ensures { result ≡ passes (λ c. list_any (is_main c) c.methods) (file_named files.now.classes.items main.now) }
{
    match files.named_in_folder(main) {
        Some(class) => has_main_method(class),
        None => false,
    }
}

/// Whether superclass and superinterfaces of a class are there and of the right sort.
fn fits(files: &Files, class: &ClassFile) -> bool
    ensures { result ≡ (super_fits (files.now.classes.items ++ files.now.core.items) class.now (super_name class.now) && interfaces_fit (files.now.classes.items ++ files.now.core.items) class.now) }
{
    super_fits(files, class) && interfaces_fit(files, class)
}

fn judge_supers(alloc: Global, files: &Files) -> Result<(), LinkFault>
    ensures { Judges result (bad_super (files.now.classes.items ++ files.now.core.items) files.now.classes.items) }
{
    for class in &files.classes {
        if !fits(files, class) {
            return Err(LinkFault::NoSuper {
                class: Name::of(alloc, name_of(class))?,
            });
        }
        if super_is_final(files, class) {
            return Err(LinkFault::FinalSuper {
                class: Name::of(alloc, name_of(class))?,
            });
        }
    }
    Ok(())
}

fn super_places(alloc: Global, files: &Files, class: &ClassFile) -> Result<Vec<usize>, AllocError>
    ensures { IfOk result (λ places. places.items ≡ filter_map (place_of (names_of (files.now.classes.items ++ files.now.core.items))) (option_to_list (super_name class.now))) }
{
    let mut places = Vec::new(alloc);
    if let Some(name) = super_name(class) {
        if let Some(place) = files.place_of(name) {
            places.push(place)?;
        }
    }
    Ok(places)
}

fn add_interfaces(
    files: &Files,
    class: &ClassFile,
    places: &mut Vec<usize>,
) -> Result<(), AllocError>
    ensures { OnOk result (places.new.items ≡ places.old.items ++ filter_map (place_of_class (files.now.classes.items ++ files.now.core.items) class.now.pool) class.now.interfaces) }
{
    for index in class.interfaces.as_slice() {
        if let Some(place) = files.place_of(class_name(&class.pool, *index)) {
            places.push(place)?;
        }
    }
    Ok(())
}

/// The places of the direct ancestors of a class that are there.
fn parent_places(
    alloc: Global,
    files: &Files,
    class: &ClassFile,
) -> Result<Items<usize>, AllocError>
    ensures { IfOk result (λ places. places ≡ parent_places (files.now.classes.items ++ files.now.core.items) class.now) }
{
    let mut places = super_places(alloc, files, class)?;
    add_interfaces(files, class, &mut places)?;
    Ok(Items::of(places))
}

fn add_rows(
    alloc: Global,
    files: &Files,
    classes: &[ClassFile],
    rows: &mut Vec<Items<usize>>,
) -> Result<(), AllocError>
    ensures { OnOk result (rows.new.items ≡ rows.old.items ++ map (parent_places (files.now.classes.items ++ files.now.core.items)) classes.now) }
{
    for class in classes {
        rows.push(parent_places(alloc, files, class)?)?;
    }
    Ok(())
}

fn all_parents(alloc: Global, files: &Files) -> Result<Vec<Items<usize>>, AllocError>
    ensures { IfOk result (λ rows. rows.items ≡ all_parents (files.now.classes.items ++ files.now.core.items)) }
{
    let mut rows = Vec::new(alloc);
    add_rows(alloc, files, &files.classes, &mut rows)?;
    add_rows(alloc, files, &files.core, &mut rows)?;
    Ok(rows)
}

/// Whether a class is its own ancestor, where the ancestry is that of all classes.
fn is_own(
    alloc: Global,
    files: &Files,
    ancestry: &Ancestry,
    class: &ClassFile,
) -> Result<bool, AllocError>
    requires { ancestry.now.parents.items ≡ all_parents (files.now.classes.items ++ files.now.core.items) }
    ensures { IfOk result (λ own. own ≡ is_own_ancestor (files.now.classes.items ++ files.now.core.items) class.now) }
{
    match files.place_of(name_of(class)) {
        Some(place) => ancestry.is_own_ancestor(alloc, place),
        None => Ok(false),
    }
}

fn first_cycle(alloc: Global, files: &Files, ancestry: &Ancestry) -> Result<(), LinkFault>
    requires { ancestry.now.parents.items ≡ all_parents (files.now.classes.items ++ files.now.core.items) }
    ensures { Judges result (cycle (files.now.classes.items ++ files.now.core.items) files.now.classes.items) }
{
    for class in &files.classes {
        if is_own(alloc, files, ancestry, class)? {
            return Err(LinkFault::Cycle {
                class: Name::of(alloc, name_of(class))?,
            });
        }
    }
    Ok(())
}

fn judge_cycles(alloc: Global, files: &Files) -> Result<(), LinkFault>
    ensures { Judges result (cycle (files.now.classes.items ++ files.now.core.items) files.now.classes.items) }
{
    let parents = all_parents(alloc, files)?;
    let ancestry = Ancestry::new(alloc, parents)?;
    first_cycle(alloc, files, &ancestry)
}

fn judge_options(alloc: Global, files: &Files, options: &[OptionField]) -> Result<(), LinkFault>
    ensures { Judges result (no_option files.now.classes.items options.now) }
{
    for option in options {
        if !has_place(files, option) {
            return Err(LinkFault::NoOption {
                option: Name::of(alloc, option.name.bytes())?,
            });
        }
    }
    Ok(())
}

fn judge_main(files: &Files, main: &[u8]) -> Result<(), LinkFault>
    ensures { Judges result (no_main files.now.classes.items main.now) }
{
    if has_main(files, main) {
        Ok(())
    } else {
        Err(LinkFault::NoMain)
    }
}

/// Finds the first fault of the folder's classes beside the core classes, where no class is there twice.
pub fn judge(
    alloc: Global,
    files: &Files,
    options: &[OptionField],
    main: &[u8],
) -> Result<(), LinkFault>
    ensures { Judges result (later_fault files.now.classes.items files.now.core.items options.now main.now) }
{
    judge_supers(alloc, files)?;
    judge_cycles(alloc, files)?;
    judge_options(alloc, files, options)?;
    judge_main(files, main)
}
