//! Constants of the pool (JVMS 6.5 ldc, ldc_w, ldc2_w).

ghost use Rattle.std.specs.Prelude.{◌≡◌, IfOk, Some, option_map};
ghost use Rattle.vx_pool.specs.Lookups.{entry_of};
ghost use Rattle.vx_java.specs.Checks.{with_class};
ghost use Rattle.vx_java.specs.Constants.{push_entry};
ghost use Rattle.vx_java.specs.FirstObjects.{literal_object};
ghost use Rattle.vx_java.specs.Ids.{as_class};
ghost use Rattle.vx_java.specs.Machine.{Ref, push};
ghost use Rattle.vx_link.specs.ClassNames.{class_named};
ghost use Rattle.vx_link.specs.Names.{class_name, utf8};
ghost use Rattle.vx_plain.specs.Views.{state_of};
ghost use Rattle.vx_plain_here.specs.Rows.{ComesTo, here_in};
ghost use Rattle.vx_plain_tables.specs.Tables.{literal_in};
ghost use Rattle.vx_pool.specs.declared.pool.Entry.TheVariants.{Class};

use vx_link::class_name;
use vx_plain::{State, Value};
use vx_plain_here::Made;
use vx_plain_tables::Seen;
use vx_pool::{Entry, entry_of};

/// The numbers of the words for what ends a run as unsupported.
const FLOAT: u8 = 1;

const CONSTANT: u8 = 4;

const CLASS: u8 = 6;

/// The object of an entry that is a literal.
fn push_literal(seen: &Seen<'_>, state: &mut State, index: u16) -> Made
    ensures { let h = here_in seen.now.here (state_of state.old) in IfOk result (ComesTo (push h (Ref (literal_in h.program h.pool (entry_of h.pool index))) h.state.top.operands) h.state (state_of state.new)) }
{
    let object = seen.literal(index);
    seen.here.push(state, 0, Value::Ref(object))
}

/// The class object of an entry whose class is there.
fn push_class(seen: &Seen<'_>, state: &mut State, index: u16) -> Made
    ensures { let h = here_in seen.now.here (state_of state.old) in IfOk result (ComesTo (with_class h (class_name h.pool index) (λ c. push h (Ref (literal_in h.program h.pool (entry_of h.pool index))) h.state.top.operands)) h.state (state_of state.new)) }
{
    match seen.class_named(index) {
        Some(_) => push_literal(seen, state, index),
        None => seen
            .here
            .unsupported(state, CLASS, class_name(seen.here.pool, index)),
    }
}

/// A number, the object of a string literal, or the class object of a class that is there.
pub fn push_entry(seen: &Seen<'_>, state: &mut State, index: u16) -> Made
    ensures { let h = here_in seen.now.here (state_of state.old) in IfOk result (ComesTo (push_entry h (entry_of h.pool index)) h.state (state_of state.new)) }
{
    match entry_of(seen.here.pool, index) {
        Some(Entry::Integer(n)) => seen.here.push(state, 0, Value::Int(*n)),
        Some(Entry::Long(n)) => seen.here.push(state, 0, Value::Long(*n)),
        Some(Entry::Text(_)) => push_literal(seen, state, index),
        Some(Entry::Class(_)) => push_class(seen, state, index),
        Some(Entry::Float(_)) => seen.here.unsupported(state, FLOAT, b"-"),
        Some(Entry::Double(_)) => seen.here.unsupported(state, FLOAT, b"-"),
        Some(Entry::MethodHandle(_, _)) => seen.here.unsupported(state, CONSTANT, b"-"),
        Some(Entry::MethodType(_)) => seen.here.unsupported(state, CONSTANT, b"-"),
        Some(Entry::Unusable) => seen.here.illegal(state),
        Some(Entry::Utf8(_)) => seen.here.illegal(state),
        Some(Entry::Field(_, _)) => seen.here.illegal(state),
        Some(Entry::Method(_, _)) => seen.here.illegal(state),
        Some(Entry::InterfaceMethod(_, _)) => seen.here.illegal(state),
        Some(Entry::NameAndType(_, _)) => seen.here.illegal(state),
        Some(Entry::InvokeDynamic(_, _)) => seen.here.illegal(state),
        None => seen.here.illegal(state),
    }
}
