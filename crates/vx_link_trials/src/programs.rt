ghost use Rattle.std.specs.Prelude.{◌≡◌, All, IfOk, length};
ghost use Rattle.vx_class.specs.File.{Holds};

use std::alloc::Global;
use std::test::Fail;
use vx_class::{ClassFile, read_class};
use vx_core::core;
use vx_link::{Program, Sought};
use vx_linker::link;
use vx_model::read_model;
use vx_value::{ClassId, FieldId, MethodId};

/// The class `Base`, below `java/lang/Object`, with the fields `int a`, `static int s` and `long b`, and no method.
const BASE: &[u8] =
    b"\xca\xfe\xba\xbe\x00\x00\x003\x00\x0a\x01\x00\x04Base\x07\x00\x01\x01\x00\x10java/lang/Object\x07\x00\x03\x01\x00\x01a\x01\x00\x01I\x01\x00\x01s\x01\x00\x01b\x01\x00\x01J\x00!\x00\x02\x00\x04\x00\x00\x00\x03\x00\x00\x00\x05\x00\x06\x00\x00\x00\x08\x00\x07\x00\x06\x00\x00\x00\x00\x00\x08\x00\x09\x00\x00\x00\x00\x00\x00";

/// The class `Main`, below `Base`, with the fields `static boolean X` and `int c`, and with `main`.
const MAIN: &[u8] =
    b"\xca\xfe\xba\xbe\x00\x00\x003\x00\x0c\x01\x00\x04Main\x07\x00\x01\x01\x00\x04Base\x07\x00\x03\x01\x00\x01X\x01\x00\x01Z\x01\x00\x01c\x01\x00\x01I\x01\x00\x04main\x01\x00\x16([Ljava/lang/String;)V\x01\x00\x04Code\x00!\x00\x02\x00\x04\x00\x00\x00\x02\x00\x09\x00\x05\x00\x06\x00\x00\x00\x00\x00\x07\x00\x08\x00\x00\x00\x01\x00\x09\x00\x09\x00\x0a\x00\x01\x00\x0b\x00\x00\x00\x0d\x00\x00\x00\x01\x00\x00\x00\x01\xb1\x00\x00\x00\x00\x00\x00";

/// The two classes in ascending path.
fn folder(alloc: Global) -> Result<Vec<ClassFile>, Fail>
    ensures few { IfOk result (λ classes. length classes.items ≡ 2) }
    ensures read { IfOk result (λ classes. All Holds classes.items) }
{
    let base = read_class(alloc, BASE)?;
    let main = read_class(alloc, MAIN)?;
    let mut classes = Vec::new(alloc);
    classes.push(base)?;
    classes.push(main)?;
    Ok(classes)
}

/// The program of the folder, whose option `X` is the field of `Main`.
fn program(alloc: Global) -> Result<Program, Fail> {
    let classes = folder(alloc)?;
    let core = core(alloc)?;
    let model = read_model(alloc, b"option X Main X\noption Y\n")?;
    Ok(link(alloc, classes, core, &model, b"Main")?)
}

fn cell_of(program: &Program, number: usize) -> Option<u32> {
    match program.fields.get(number) {
        Some(field) => Some(field.cell),
        None => None,
    }
}

/// Whether the cells of a superclass come first.
fn are_cells(program: &Program) -> bool {
    cell_of(program, 0) == Some(0)
        && cell_of(program, 1) == Some(0)
        && cell_of(program, 2) == Some(1)
        && cell_of(program, 3) == Some(0)
        && cell_of(program, 4) == Some(2)
}

/// Whether the first option has its field, and the second none.
fn are_options(program: &Program) -> bool {
    program.options.as_slice() == [Some(FieldId(3)), None].as_slice()
}

/// Whether the core classes stand behind those of the folder.
fn are_core_classes_last(program: &Program) -> bool {
    match program.classes.get(0) {
        Some(base) => base.superclass == Some(ClassId(2)),
        None => false,
    }
}

/// The method `main` stands behind the initialiser of the class before.
#[test]
fn a_folder_is_linked_in_its_order(rt: HostRuntime) -> Result<(), Fail> {
    let program = program(rt.alloc())?;
    assert!(rt; program.main == MethodId(1));
    assert!(rt; are_cells(&program));
    assert!(rt; are_options(&program));
    assert!(rt; are_core_classes_last(&program));
    Ok(())
}

/// Whether a field of a name and a descriptor has a number among those of the folder's classes.
fn is_field(program: &Program, name: &[u8], descriptor: &[u8], number: Option<u64>) -> bool {
    let sought = Sought::of(name, descriptor);
    program.fields.first(&sought, 0, 4) == number
}

#[test]
fn classes_and_members_are_found_by_their_names(rt: HostRuntime) -> Result<(), Fail> {
    let program = program(rt.alloc())?;
    let main = Sought::of(b"main", b"([Ljava/lang/String;)V");
    assert!(rt; program.methods.first(&main, 0, 2) == Some(1));
    assert!(rt; program.methods.first(&main, 2, 2) == None);
    assert!(rt; is_field(&program, b"b", b"J", Some(2)) && is_field(&program, b"b", b"I", None));
    assert!(rt; program.classes.place_of(b"Main") == Some(1));
    assert!(rt;
        program.classes.methods_of(1).first == 1 && program.classes.fields_of(1).first == 3
    );
    Ok(())
}
