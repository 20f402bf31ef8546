//! The fields that instructions name (JVMS 5.4.3.2, 6.5 getstatic, putstatic, getfield, putfield).

ghost use Rattle.std.specs.Prelude.{◌≡◌, IfOk};
ghost use Rattle.vx_java.specs.Fields.{field_text, with_field};
ghost use Rattle.vx_java.specs.Machine.{unsupported};
ghost use Rattle.vx_java.specs.Operation.{class_word, field_word};
ghost use Rattle.vx_link.specs.Names.{member};
ghost use Rattle.vx_plain.specs.Views.{state_of};
ghost use Rattle.vx_plain_fields.specs.Fields.{found_of, is_static_use, used};
ghost use Rattle.vx_plain_here.specs.Rows.{ComesTo, here_in};
ghost use Rattle.vx_references.specs.Fields.{IsFieldReference, by_reference};

use crate::loading::{get_field, get_static};
use crate::storing::{put_field, put_static};
use vx_desc::JavaType;
use vx_java::member;
use vx_plain::State;
use vx_plain_here::{Made, unsupported_at};
use vx_plain_tables::{Seen, descriptor_in};
use vx_references::{FieldReference, field_reference, field_text};
use vx_value::{ClassId, FieldId};

/// The numbers of the words for what ends a run as unsupported.
const FLOAT: u8 = 1;

const CLASS: u8 = 6;

const FIELD: u8 = 7;

/// What an instruction does with a field.
#[derive(Clone, Copy)]
pub enum Use {
    GetStatic,
    PutStatic,
    GetField,
    PutField,
}

/// A field that an instruction names, with the class that it names and the type of the field.
#[derive(Clone, Copy)]
pub(crate) struct Found {
    pub named: ClassId,
    pub field: FieldId,
    pub field_type: JavaType,
}

fn is_static_use(as_what: Use) -> bool
    ensures { result ≡ is_static_use as_what }
{
    match as_what {
        Use::GetStatic | Use::PutStatic => true,
        Use::GetField | Use::PutField => false,
    }
}

/// The class that is named isn't there.
fn no_class(seen: &Seen<'_>, state: &State, index: u16) -> Made
    ensures { let s = state_of state.now in IfOk result (ComesTo (unsupported (here_in seen.now.here s) class_word (member seen.now.here.pool.now index).class) s s) }
{
    let named = member(seen.here.pool, index);
    seen.here.unsupported(state, CLASS, named.class)
}

/// The class has no such field.
fn no_field(seen: &Seen<'_>, state: &State, index: u16) -> Made
    ensures { let s = state_of state.now in IfOk result (ComesTo (unsupported (here_in seen.now.here s) field_word (field_text (member seen.now.here.pool.now index))) s s) }
{
    let named = member(seen.here.pool, index);
    let what = field_text(seen.here.alloc, &named)?;
    unsupported_at(seen.here.alloc, seen.here.program, state, FIELD, what)
}

/// What an instruction does with a field that is there.
fn used(seen: &Seen<'_>, state: &mut State, as_what: Use, found: Found) -> Made
    ensures { let s = state_of state.old in IfOk result (ComesTo (used (here_in seen.now.here s) as_what (found_of found)) s (state_of state.new)) }
{
    match as_what {
        Use::GetStatic => get_static(seen, state, found),
        Use::PutStatic => put_static(seen, state, found),
        Use::GetField => get_field(seen, state, found),
        Use::PutField => put_field(seen, state, found),
    }
}

/// The row by what the reference comes to.
fn by_reference(
    seen: &Seen<'_>,
    state: &mut State,
    as_what: Use,
    index: u16,
    reference: FieldReference,
) -> Made
    ensures { let s = state_of state.old in IfOk result (ComesTo (by_reference (here_in seen.now.here s) (member seen.now.here.pool.now index) reference (used (here_in seen.now.here s) as_what)) s (state_of state.new)) }
{
    match reference {
        FieldReference::Found {
            named,
            field,
            field_type,
        } => {
            let found = Found {
                named,
                field,
                field_type,
            };
            used(seen, state, as_what, found)
        }
        FieldReference::NoType => seen.here.illegal(state),
        FieldReference::Floating => seen.here.unsupported(state, FLOAT, b"-"),
        FieldReference::NoClass => no_class(seen, state, index),
        FieldReference::NoField => no_field(seen, state, index),
        FieldReference::Disagrees => {
            seen.here
                .raise(state, b"java/lang/IncompatibleClassChangeError")
        }
    }
}

/// The field that an entry of the pool names.
fn reference_of(seen: &Seen<'_>, index: u16, is_static: bool) -> FieldReference
    ensures { IsFieldReference seen.now.here.program.now seen.now.here.pool.now index is_static result }
{
    let descriptor = descriptor_in(seen.here.pool, index);
    prove!(descriptor.len() < 65536);
    let owner = seen.owner(index);
    field_reference(seen.here.program, seen.here.pool, index, owner, is_static)
}

/// getstatic, putstatic, getfield, putfield.
pub fn row_of_field(seen: &Seen<'_>, state: &mut State, as_what: Use, index: u16) -> Made
    ensures { let s = state_of state.old in IfOk result (ComesTo (with_field (here_in seen.now.here s) index (is_static_use as_what) (used (here_in seen.now.here s) as_what)) s (state_of state.new)) }
{
    let reference = reference_of(seen, index, is_static_use(as_what));
    by_reference(seen, state, as_what, index, reference)
}
