//! The core classes of the first objects.

ghost use Rattle.std.specs.Prelude.{◌≡◌, ◌<◌, ◌≤◌, ◌+◌, length, unwrap_or};
ghost use Rattle.vx_initial_heap.specs.Classes.{AreCoreClasses};
ghost use Rattle.vx_java.specs.Ids.{HasClassNumbers};
ghost use Rattle.vx_link.specs.ClassNames.{array_class, class_element, class_of_name};

use vx_java::class_of_name;
use vx_link::Program;
use vx_value::ClassId;

/// The classes of the first objects, which each program has among its core classes.
#[derive(Clone, Copy)]
pub struct CoreClasses {
    pub print_stream: ClassId,
    pub integer: ClassId,
    pub boolean: ClassId,
    pub string: ClassId,
    pub class: ClassId,
    /// The class of arrays of strings.
    pub strings: ClassId,
}

fn core_class(program: &Program, name: &[u8]) -> ClassId
    requires { HasClassNumbers program.now }
    ensures class { result.0 ≡ unwrap_or (class_of_name program.now name.now) 0 }
    ensures within { result.0 ≤ length program.now.classes }
{
    class_of_name(program, name).unwrap_or(ClassId(0))
}

/// The class of arrays of one dimension of a class.
fn array_of(program: &Program, class: ClassId) -> ClassId
    requires classes { HasClassNumbers program.now }
    requires within { class.0 ≤ length program.now.classes }
    ensures { result.0 ≡ array_class program.now 1 (class_element class.0) }
{
    ClassId(program.classes.len() as u32 + (8 + class.0))
}

/// The core classes of a program, each found by its name.
pub fn core_classes(program: &Program) -> CoreClasses
    requires { HasClassNumbers program.now }
    ensures { AreCoreClasses program.now result }
{
    let string = core_class(program, b"java/lang/String");
    CoreClasses {
        print_stream: core_class(program, b"java/io/PrintStream"),
        integer: core_class(program, b"java/lang/Integer"),
        boolean: core_class(program, b"java/lang/Boolean"),
        string,
        class: core_class(program, b"java/lang/Class"),
        strings: array_of(program, string),
    }
}
