//! The names that are called. Which ones they are bears only on an order, so contracts say nothing of them: these calls are safe and end, and
//! where memory is wanting what they were lent is given up.

use crate::names::{MethodNames, full_name};
use std::alloc::{AllocError, Global};
use vx_class::Code;
use vx_java::decoding::operation;
use vx_java::parts::class_of_method;
use vx_java::{Operation, member_by};
use vx_link::Program;
use vx_list::GivenUp;
use vx_opcode::decode;
use vx_pool::{Pool, entry_of};
use vx_value::MethodId;

/// The most bytes of a code.
const MOST_BYTES: usize = 65_535;

/// The names that are called so far, by their places, and the order in which they came.
#[derive(Drop)]
pub(crate) struct Called {
    pub marks: Vec<bool>,
    pub order: Vec<usize>,
}

impl Called {
    /// None of so many names.
    pub(crate) fn none(alloc: Global, names: usize) -> Result<Called, AllocError> {
        Ok(Called {
            marks: Vec::from_elem(alloc, false, names)?,
            order: Vec::new(alloc),
        })
    }

    /// Puts the name at a place behind those that are called, unless it is called already.
    pub(crate) fn put(&mut self, place: usize) -> Result<(), GivenUp> {
        let Some(mark) = self.marks.get_mut(place) else {
            return Ok(());
        };
        if *mark {
            return Ok(());
        }
        *mark = true;
        Ok(self.order.push(place)?)
    }

    /// Puts a name, if a method has it.
    pub(crate) fn put_name(&mut self, names: &MethodNames, full: &[u8]) -> Result<(), GivenUp> {
        match names.place_of(full) {
            Some(place) => self.put(place),
            None => Ok(()),
        }
    }

    /// Puts the name that an operation calls, if it calls one.
    fn put_operation(
        &mut self,
        alloc: Global,
        names: &MethodNames,
        pool: &Pool,
        operation: Operation,
    ) -> Result<(), GivenUp> {
        let Operation::Invoke(_, index) = operation else {
            return Ok(());
        };
        let reference = member_by(pool, entry_of(pool, index));
        let full = full_name(alloc, reference.name, reference.descriptor)?;
        self.put_name(names, full.as_slice())
    }

    /// Puts the names that the instructions of a code call. None has more than 65,535 bytes (JVMS 4.7.3); a longer one would be passed over.
    fn put_code(
        &mut self,
        alloc: Global,
        names: &MethodNames,
        pool: &Pool,
        code: &Code,
    ) -> Result<(), GivenUp> {
        let bytes = code.bytes.as_slice();
        if bytes.len() > MOST_BYTES {
            return Ok(());
        }
        let mut at = 0;
        for _step in 0..bytes.len() {
            let Ok(instruction) = decode(bytes, at) else {
                return Ok(());
            };
            self.put_operation(alloc, names, pool, operation(&instruction))?;
            at += instruction.length;
        }
        Ok(())
    }

    /// Puts the names that a method calls.
    fn put_method(
        &mut self,
        alloc: Global,
        names: &MethodNames,
        program: &Program,
        method: MethodId,
    ) -> Result<(), GivenUp> {
        let Some(linked) = program.method(method) else {
            return Ok(());
        };
        let Some(class) = program.class(class_of_method(program, method)) else {
            return Ok(());
        };
        match &linked.code {
            Some(code) => self.put_code(alloc, names, &class.pool, code),
            None => Ok(()),
        }
    }

    /// Puts the names that these methods call.
    pub(crate) fn put_methods(
        &mut self,
        alloc: Global,
        names: &MethodNames,
        program: &Program,
        methods: &[MethodId],
    ) -> Result<(), GivenUp> {
        for method in methods {
            self.put_method(alloc, names, program, *method)?;
        }
        Ok(())
    }
}
