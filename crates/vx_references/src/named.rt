//! The classes that the entries of pools name in a program, found once (JVMS 5.4.3.1).

ghost use Rattle.std.specs.Prelude.{◌≡◌, IfOk, None, Some, map};
ghost use Rattle.vx_java.specs.Ids.{HasClassNumbers};
ghost use Rattle.vx_link.specs.Names.{class_name, member};
ghost use Rattle.vx_link.specs.Parts.{class_at};
ghost use Rattle.vx_references.specs.Named.{class_by_texts, class_of_entry, class_of_text, class_table};

use std::alloc::{AllocError, Global};
use vx_java::class_named;
use vx_link::Program;
use vx_list::Items;
use vx_pool::{Entry, Pool, entry_of};
use vx_value::ClassId;

/// The class of a text.
fn class_of_text(program: &Program, entry: &Entry) -> Option<ClassId>
    requires { HasClassNumbers program.now }
    ensures { result ≡ class_of_text program.now (Some entry.now) }
{
    match entry {
        Entry::Utf8(text) => class_named(program, text.as_slice()),
        _ => class_named(program, &[]),
    }
}

/// The class of each text of a pool, so that a name that many entries share is looked for once.
fn classes_of_texts(
    alloc: Global,
    program: &Program,
    pool: &Pool,
) -> Result<Vec<Option<ClassId>>, AllocError>
    requires { HasClassNumbers program.now }
    ensures { IfOk result (λ row. row.items ≡ map (λ e. class_of_text program.now (Some e)) pool.now.entries) }
{
    let mut row = Vec::new(alloc);
    for entry in pool.entries.as_slice() {
        row.push(class_of_text(program, entry))?;
    }
    Ok(row)
}

/// The class that an entry names, where `texts` has the class of each text and `nothing` is that of the empty name.
fn class_by_texts(
    texts: &[Option<ClassId>],
    nothing: Option<ClassId>,
    entry: &Entry,
) -> Option<ClassId>
    ensures { result ≡ class_by_texts texts.now nothing (Some entry.now) }
{
    match entry {
        Entry::Class(name) => texts.get(*name as usize).copied().unwrap_or(nothing),
        _ => nothing,
    }
}

fn row_of(
    alloc: Global,
    program: &Program,
    pool: &Pool,
) -> Result<Items<Option<ClassId>>, AllocError>
    requires { HasClassNumbers program.now }
    ensures { IfOk result (λ row. row ≡ map (λ e. class_of_entry program.now pool.now (Some e)) pool.now.entries) }
{
    let texts = classes_of_texts(alloc, program, pool)?;
    let nothing = class_named(program, &[]);
    let mut row = Vec::new(alloc);
    for entry in pool.entries.as_slice() {
        row.push(class_by_texts(&texts, nothing, entry))?;
    }
    Ok(Items::of(row))
}

/// For each class and each entry of its pool the class that the entry names.
pub fn class_table(
    alloc: Global,
    program: &Program,
) -> Result<Vec<Items<Option<ClassId>>>, AllocError>
    requires { HasClassNumbers program.now }
    ensures { IfOk result (λ table. table.items ≡ class_table program.now) }
{
    let mut table = Vec::new(alloc);
    for class in program.classes.as_slice() {
        table.push(row_of(alloc, program, &class.pool)?)?;
    }
    Ok(table)
}

fn owner_in(pool: &Pool, index: u16) -> u16
    ensures { class_name pool.now result ≡ (member pool.now index).class }
{
    match entry_of(pool, index) {
        Some(Entry::Field(class, _) | Entry::Method(class, _)) => *class,
        Some(Entry::InterfaceMethod(class, _)) => *class,
        _ => 0,
    }
}

/// The entry of the class that a member's entry names, in the pool of a class.
pub fn owner_entry(program: &Program, class: ClassId, index: u16) -> u16
    ensures { class_name (class_at program.now class.0).pool result ≡ (member (class_at program.now class.0).pool index).class }
{
    match program.class(class) {
        Some(class) => owner_in(&class.pool, index),
        None => 0,
    }
}
