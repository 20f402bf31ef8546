//! The class file of a row of the table.

ghost use Rattle.std.specs.Prelude.{◌≡◌, [], IfOk, fold};
ghost use Rattle.vx_link.specs.Written.{super_index};
ghost use Rattle.vx_core.specs.Rows.{head_pool, with_interface, with_field_file, with_method_file, row_file};

use crate::body::{code_of, part_index};
use crate::entries::{
    low, put_class, put_fields, put_interfaces, put_methods, put_references, put_super,
};
use crate::row::{ClassRow, FieldRow, MethodRow};
use std::alloc::{AllocError, Global};
use vx_class::{ClassFile, Field, Method};
use vx_list::Items;
use vx_pool::{Entry, Pool};

/// The first entries of the pool: the class, its superclass and its interfaces.
#[tactic(auto, unfolding(crate::specs::Rows::head_pool))]
fn head_entries(alloc: Global, row: &ClassRow) -> Result<Vec<Entry>, AllocError>
    ensures { IfOk result (λ pool. pool.items ≡ head_pool row.now) }
{
    let mut pool = Vec::new(alloc);
    pool.push(Entry::Unusable)?;
    put_class(alloc, &mut pool, row.name)?;
    put_super(alloc, &mut pool, row.superclass)?;
    put_interfaces(alloc, &mut pool, row.interfaces)?;
    Ok(pool)
}

/// The indices of the interfaces.
#[tactic(auto, unfolding(crate::specs::Rows::with_interface))]
fn interface_indices(alloc: Global, names: &[&str]) -> Result<Vec<u16>, AllocError>
    ensures { IfOk result (λ indices. indices.items ≡ fold (λ before _. with_interface before) [] names.now) }
{
    let mut indices = Vec::new(alloc);
    for _name in names {
        let index = part_index(5, 2, indices.len());
        indices.push(index)?;
    }
    Ok(indices)
}

/// The fields, where their names begin at an index.
#[tactic(auto, unfolding(crate::specs::Rows::with_field_file))]
fn field_files(alloc: Global, start: u16, fields: &[FieldRow]) -> Result<Vec<Field>, AllocError>
    ensures { IfOk result (λ files. files.items ≡ fold (with_field_file start) [] fields.now) }
{
    let mut files = Vec::new(alloc);
    for field in fields {
        let name = part_index(start, 2, files.len());
        files.push(Field {
            flags: field.flags,
            name,
            descriptor: low(name as usize + 1),
            constant: 0,
        })?;
    }
    Ok(files)
}

/// The methods, where their names and the references begin at indices.
#[tactic(auto, unfolding(crate::specs::Rows::with_method_file))]
fn method_files(
    alloc: Global,
    start: u16,
    references: u16,
    methods: &[MethodRow],
) -> Result<Vec<Method>, AllocError>
    ensures { IfOk result (λ files. files.items ≡ fold (with_method_file start references) [] methods.now) }
{
    let mut files = Vec::new(alloc);
    for method in methods {
        let name = part_index(start, 2, files.len());
        let code = code_of(alloc, references, &method.how)?;
        files.push(Method {
            flags: method.flags,
            name,
            descriptor: low(name as usize + 1),
            code,
        })?;
    }
    Ok(files)
}

/// The index of the superclass, or 0 where there is none.
fn super_index(superclass: Option<&str>) -> u16
    ensures { result ≡ super_index superclass.entry }
{
    match superclass {
        Some(_) => 3,
        None => 0,
    }
}

/// The class file of a row.
#[tactic(auto, unfolding(crate::specs::Rows::row_file, crate::specs::Rows::row_pool, crate::specs::Rows::method_pool, crate::specs::Rows::field_pool))]
pub fn class_file(alloc: Global, row: &ClassRow) -> Result<ClassFile, AllocError>
    ensures { IfOk result (λ file. file ≡ row_file row.now) }
{
    let mut pool = head_entries(alloc, row)?;
    let fields_at = low(pool.len());
    put_fields(alloc, &mut pool, row.fields)?;
    let methods_at = low(pool.len());
    put_methods(alloc, &mut pool, row.methods)?;
    let references_at = low(pool.len());
    put_references(alloc, &mut pool, row.references)?;
    let interfaces = interface_indices(alloc, row.interfaces)?;
    let fields = field_files(alloc, fields_at, row.fields)?;
    let methods = method_files(alloc, methods_at, references_at, row.methods)?;
    Ok(ClassFile {
        minor: 0,
        major: 51,
        pool: Pool {
            entries: Items::of(pool),
        },
        flags: row.flags,
        this_class: 1,
        super_class: super_index(row.superclass),
        interfaces: Items::of(interfaces),
        fields: Items::of(fields),
        methods: Items::of(methods),
    })
}
