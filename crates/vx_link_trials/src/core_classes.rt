//! A few parts of the list, with ample memory.

use vx_class::ClassFile;
use vx_core::core;

fn is_string(class: &ClassFile) -> bool {
    class.flags == 0x0031 && class.interfaces.len() == 3 && class.methods.len() == 25
}

/// The code of `valueOf`, the last method of the class `String`.
fn code_of_text(class: &ClassFile) -> Option<&[u8]> {
    let value_of = class.methods.get(24)?;
    let code = value_of.code.as_ref()?;
    Some(code.bytes.as_slice())
}

/// Whether code is of 12 bytes: aload_0, ifnonnull 6, ldc, areturn, aload_0, invokevirtual, areturn.
fn is_code_of_text(bytes: &[u8]) -> bool {
    bytes.len() == 12 && &bytes[..5] == [0x2a, 0xc7, 0x00, 0x06, 0x12].as_slice()
}

#[test]
fn string_is_the_ninth_of_46_classes_and_gives_the_text_of_an_object(rt: HostRuntime) {
    let list = core(rt.alloc()).expect(&rt, "memory");
    assert!(rt; list.classes.len() == 46);
    let Some(string) = list.classes.get(8) else {
        panic!(rt; "no String");
    };
    assert!(rt; is_string(string));
    assert!(rt; matches!(code_of_text(string), Some(bytes) if is_code_of_text(bytes)));
}
