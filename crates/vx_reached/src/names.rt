//! Methods by their names and descriptors. Which methods have a name bears only on an order, so contracts say nothing of it: these calls are
//! safe and end, and where memory is wanting what they were lent is given up.

ghost use Rattle.std.specs.Prelude.{◌≡◌, ◌++◌, IfOk};
ghost use Rattle.vx_link.specs.Parts.{method_at};

use std::alloc::{AllocError, Global};
use std::hash::{DefaultHasher, Hasher};
use vx_java::parts::{descriptor_of_method, name_of_method};
use vx_link::Program;
use vx_list::{GivenUp, Keyed};
use vx_names::NameTable;
use vx_numbered::next_number;
use vx_value::MethodId;

/// A name with its descriptor.
pub(crate) fn full_name(
    alloc: Global,
    name: &[u8],
    descriptor: &[u8],
) -> Result<Vec<u8>, AllocError>
    ensures { IfOk result (λ full. full.items ≡ name.now ++ descriptor.now) }
{
    let mut full = Vec::from_slice(alloc, name)?;
    full.extend_from_slice(descriptor)?;
    Ok(full)
}

/// The name of a method with its descriptor.
pub(crate) fn full_name_of(
    alloc: Global,
    program: &Program,
    method: MethodId,
) -> Result<Vec<u8>, AllocError>
    ensures { IfOk result (λ full. full.items ≡ (method_at program.now method.0).name ++ (method_at program.now method.0).descriptor) }
{
    let name = name_of_method(program, method);
    full_name(alloc, name, descriptor_of_method(program, method))
}

/// A key of hashes that is made of the names of all methods. It bears on how fast a name is found, and on no answer.
fn hash_key(program: &Program) -> Keyed {
    let mut read = DefaultHasher::new();
    for number in 0..program.methods.len() {
        if let Some(method) = program.methods.get(number) {
            read.write(method.name.bytes());
        }
    }
    Keyed::after(&read)
}

/// The methods of a program by their names with their descriptors.
#[derive(Drop)]
pub(crate) struct MethodNames {
    /// The names, each once.
    names: NameTable,
    /// For each name the methods that have it.
    methods: Vec<Vec<MethodId>>,
}

impl MethodNames {
    /// The place of a name, which is put behind the others unless it is there.
    fn placed(&mut self, alloc: Global, full: Vec<u8>) -> Result<usize, GivenUp> {
        if let Some(place) = self.names.place_of(full.as_slice()) {
            return Ok(place);
        }
        let place = self.names.len();
        self.names.add(full)?;
        self.methods.push(Vec::new(alloc))?;
        Ok(place)
    }

    /// Puts a method behind those of its name.
    fn put(&mut self, alloc: Global, program: &Program, method: MethodId) -> Result<(), GivenUp> {
        let full = full_name_of(alloc, program, method)?;
        let place = self.placed(alloc, full)?;
        let Some(methods) = self.methods.get_mut(place) else {
            return Ok(());
        };
        Ok(methods.push(method)?)
    }

    /// The methods of a program.
    pub(crate) fn of(alloc: Global, program: &Program) -> Result<MethodNames, AllocError> {
        let mut all = MethodNames {
            names: NameTable::keyed(alloc, hash_key(program)),
            methods: Vec::new(alloc),
        };
        for number in 0..program.methods.len() {
            all.put(alloc, program, MethodId(next_number(number)?))?;
        }
        Ok(all)
    }

    /// How many names there are.
    pub(crate) fn len(&self) -> usize {
        self.names.len()
    }

    /// The place of a name, if a method has it.
    pub(crate) fn place_of(&self, full: &[u8]) -> Option<usize> {
        self.names.place_of(full)
    }

    /// The methods of the name at a place.
    pub(crate) fn at(&self, place: usize) -> &[MethodId] {
        match self.methods.get(place) {
            Some(methods) => methods.as_slice(),
            None => &[],
        }
    }
}
