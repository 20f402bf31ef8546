//! The text of what a small program may lack.

use crate::programs::linked;
use std::alloc::Global;
use std::test::Fail;
use vx_may_end::spots;
use vx_spots::spots_text;

/// A class whose `main` comes to one native method, and to a float; another method comes to the float twice.
const LACKING: &[u8] = b"class 0021 Main java/lang/Object
method 0009 main ([Ljava/lang/String;)V 4 2
invokestatic Main n ()V
fconst_0
return
end
method 0009 f ()V 4 2
invokestatic Main n ()V
fconst_0
fconst_0
return
end
method 0109 n ()V
";

/// What is told where calls from `main` lead to the first method and the third.
const TOLD: &[u8] = b"unsupported 2 where calls from main lead
1 Main.n()V: a native method that is left out: any of a class of the folder, and Object's hashCode and toString
at Main.main([Ljava/lang/String;)V@0
1 -: an instruction of floats or doubles, a constant or a field of such a type, a new array of them
at Main.main([Ljava/lang/String;)V@3
unsupported ";

/// What is told then of the second method.
const ALSO_TOLD: &[u8] = b"
2 -: an instruction of floats or doubles, a constant or a field of such a type, a new array of them
at Main.f()V@3
at Main.f()V@4
";

/// What is told where they lead to all three: what is lacking at more places comes first.
const ALL_TOLD: &[u8] = b"unsupported 2 where calls from main lead
3 -: an instruction of floats or doubles, a constant or a field of such a type, a new array of them
at Main.main([Ljava/lang/String;)V@3
at Main.f()V@3
at Main.f()V@4
2 Main.n()V: a native method that is left out: any of a class of the folder, and Object's hashCode and toString
at Main.main([Ljava/lang/String;)V@0
at Main.f()V@0
unsupported ";

/// A class whose `main` calls a native method that is selected by the receiver.
const SELECTING: &[u8] = b"class 0021 Main java/lang/Object
method 0009 main ([Ljava/lang/String;)V 4 2
aconst_null
invokevirtual Main v ()V
return
end
method 0101 v ()V
";

/// The class of the receiver is told.
const BY_TOLD: &[u8] = b"unsupported 1 where calls from main lead
1 Main.v()V: a native method that is left out: any of a class of the folder, and Object's hashCode and toString
may Main.main([Ljava/lang/String;)V@1 by Main
unsupported ";

/// Whether a text stands somewhere in another one.
fn is_in(text: &[u8], part: &[u8]) -> bool {
    let mut rest = text;
    while let [_, behind @ ..] = rest {
        if rest.starts_with(part) {
            return true;
        }
        rest = behind;
    }
    false
}

/// What the program of a source may lack, in words, by marks for its first methods.
fn text_of(alloc: Global, source: &[u8], reached: &[bool]) -> Result<Vec<u8>, Fail> {
    let program = linked(alloc, source)?;
    let found = spots(alloc, &program)?;
    Ok(spots_text(alloc, &program, &[], reached, found.as_slice())?)
}

fn parts_are_told(alloc: Global) -> Result<bool, Fail> {
    let text = text_of(alloc, LACKING, &[true, false, true])?;
    Ok(text.as_slice().starts_with(TOLD) && is_in(text.as_slice(), ALSO_TOLD))
}

fn more_places_come_first(alloc: Global) -> Result<bool, Fail> {
    let text = text_of(alloc, LACKING, &[true, true, true])?;
    Ok(text.as_slice().starts_with(ALL_TOLD))
}

fn receivers_are_told(alloc: Global) -> Result<bool, Fail> {
    let text = text_of(alloc, SELECTING, &[true])?;
    Ok(text.as_slice().starts_with(BY_TOLD))
}

#[test]
fn what_is_lacking_is_told_most_frequent_first_and_where_calls_lead_before(
    rt: HostRuntime,
) -> Result<(), Fail> {
    assert!(rt; parts_are_told(rt.alloc())? && more_places_come_first(rt.alloc())?);
    Ok(())
}

#[test]
fn the_class_on_which_a_call_ends_is_told(rt: HostRuntime) -> Result<(), Fail> {
    assert!(rt; receivers_are_told(rt.alloc())?);
    Ok(())
}
