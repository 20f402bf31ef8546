//! What the instructions of a small program lack, by the rules of the Java Virtual Machine Specification and the list of what is left out.

use crate::programs::linked;
use std::alloc::Global;
use std::test::Fail;
use vx_may_end::{Spot, spots};

/// A class whose `main` comes to something of each kind that an assembler source can have, and whose other method is native.
const LACKING: &[u8] = b"class 0021 Main java/lang/Object
method 0009 main ([Ljava/lang/String;)V 4 2
aload_0
invokevirtual java/lang/Object hashCode ()I
pop
aload_0
checkcast Gone
pop
getstatic Main x I
pop
invokestatic Main f ()V
invokestatic Main n ()V
new Main
pop
fconst_0
return
end
method 0109 n ()V
";

/// Whether a spot stands at a position of a method with this name, and lacks something of this word and this name.
fn is_at(spot: &Spot, position: u32, word: u8, what: &[u8]) -> bool {
    spot.position == position
        && spot
            .lacks
            .as_slice()
            .iter()
            .all(|lack| lack.word == word && lack.what.bytes() == what)
}

/// Whether the first spots of the program are those of its `main`, and the next one is in a method of a core class.
fn are_told(alloc: Global) -> Result<bool, Fail> {
    let program = linked(alloc, LACKING)?;
    let found = spots(alloc, &program)?;
    let [hash, cast, field, method, native, float, behind, ..] = found.as_slice() else {
        return Ok(false);
    };
    Ok(
        is_at(hash, 1, 5, b"java/lang/Object.hashCode()I")
            && is_at(cast, 6, 6, b"Gone")
            && is_at(field, 10, 7, b"Main.x:I")
            && is_at(method, 14, 8, b"Main.f()V")
            && is_at(native, 17, 5, b"Main.n()V")
            && is_at(float, 24, 1, b"-")
            && behind.method.0 != float.method.0,
    )
}

#[test]
fn each_kind_of_lack_is_told_where_it_stands(rt: HostRuntime) -> Result<(), Fail> {
    assert!(rt; are_told(rt.alloc())?);
    Ok(())
}
