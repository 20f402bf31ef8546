//! What the code of a method names by its class's pool (JVMS 4.4).

ghost use Rattle.std.specs.Prelude.{◌≡◌, false, ◌<◌, ◌^◌, [], length, option_copied, option_map, unwrap_or};
ghost use Rattle.vx_pool.specs.Lookups.{entry_of};
ghost use Rattle.vx_java.specs.Named.{in_bytes};
ghost use Rattle.vx_link.specs.Names.{class_name, member, utf8};
ghost use Rattle.vx_types.specs.Rows.{current_class, pool_of};

use vx_java::parts::class_of_method;
use vx_java::{MemberReference, member_by, name_of_entry};
use vx_link::Program;
use vx_pool::{Entry, Pool, entry_of, text};
use vx_value::{ClassId, MethodId};

/// The class whose method is typed.
pub fn current_class(program: &Program, method: MethodId) -> ClassId
    ensures { result.0 ≡ current_class program.now method.0 }
{
    class_of_method(program, method)
}

/// The pool of the class of a method, or `None` where the program has no such class.
fn pool_of(program: &Program, method: MethodId) -> Option<&Pool>
    ensures { unwrap_or (option_map (λ pool. pool.now) result) (record { entries = [] }) ≡ pool_of program.now method.0 }
{
    match program.class(class_of_method(program, method)) {
        Some(class) => Some(&class.pool),
        None => None,
    }
}

/// The entry that an instruction of a method names.
pub fn entry_at(program: &Program, method: MethodId, index: u16) -> Option<&Entry>
    ensures { option_copied result ≡ entry_of (pool_of program.now method.0) index }
{
    match pool_of(program, method) {
        Some(pool) => entry_of(pool, index),
        None => None,
    }
}

/// The bytes of a text that an entry of the pool of a method's class names.
pub fn text_at(program: &Program, method: MethodId, index: u16) -> &[u8]
    ensures value { result.now ≡ utf8 (pool_of program.now method.0) index }
    ensures few { length result.now < 2 ^ 16 }
{
    let Some(pool) = pool_of(program, method) else {
        return &[];
    };
    match text(pool, index) {
        Some(text) => text,
        None => &[],
    }
}

/// The name of the class that an instruction or a catch row of a method names.
pub fn class_name_at(program: &Program, method: MethodId, index: u16) -> &[u8]
    ensures value { result.now ≡ class_name (pool_of program.now method.0) index }
    ensures few { length result.now < 2 ^ 16 }
{
    name_of_entry(program, class_of_method(program, method), index)
}

/// A member that names nothing.
fn no_member<'a>() -> MemberReference<'a>
    ensures { in_bytes result ≡ record { class = []; name = []; descriptor = []; by_interface = false } }
{
    MemberReference {
        class: &[],
        name: &[],
        descriptor: &[],
        by_interface: false,
    }
}

/// The field or method that an instruction of a method names.
pub fn member_at(program: &Program, method: MethodId, index: u16) -> MemberReference<'_>
    ensures value { in_bytes result ≡ member (pool_of program.now method.0) index }
    ensures class { length result.class.now < 2 ^ 16 }
    ensures typed { length result.descriptor.now < 2 ^ 16 }
{
    let Some(pool) = pool_of(program, method) else {
        return no_member();
    };
    member_by(pool, entry_of(pool, index))
}
