//! A program of methods that are never run.

use std::alloc::{AllocError, Global};
use vx_class::Code;
use vx_link::{AccessFlags, ClassList, LinkedMethod, MemberList, Program, SharedName};
use vx_list::Items;
use vx_value::{ClassId, MethodId};

/// A method with four locals.
fn method(alloc: Global) -> Result<LinkedMethod, AllocError> {
    let code = Code {
        max_stack: 1,
        max_locals: 4,
        bytes: Items::of(Vec::new(alloc)),
        catches: Items::of(Vec::new(alloc)),
    };
    Ok(LinkedMethod {
        class: ClassId(0),
        name: SharedName::of(alloc, b"m")?,
        descriptor: SharedName::of(alloc, b"(JI)V")?,
        flags: AccessFlags(0),
        code: Some(code),
        native: 0,
    })
}

/// Two methods.
pub(crate) fn program(alloc: Global) -> Result<Program, AllocError> {
    let mut methods = Vec::new(alloc);
    methods.push(method(alloc)?)?;
    methods.push(method(alloc)?)?;
    Ok(Program {
        classes: ClassList::of(alloc, Items::of(Vec::new(alloc)))?,
        methods: MemberList::of(alloc, Items::of(methods))?,
        fields: MemberList::of(alloc, Items::of(Vec::new(alloc)))?,
        main: MethodId(0),
        options: Items::of(Vec::new(alloc)),
    })
}
