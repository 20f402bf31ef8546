//! How many frames of callers stand while methods call themselves: the frames that groups have in common stand once.

use crate::rounds::{Counts, rounds_of};
use std::alloc::Global;
use std::test::Fail;
use vx_sched::Picker;

/// A method that calls itself so many times, and then has a branch of two more steps where A is on.
fn recursion_source(alloc: Global, depth: u32) -> Result<Vec<u8>, Fail> {
    let text = format!(in alloc;
        "class 0021 Main java/lang/Object\nfield 0009 A Z\nmethod 0009 r (I)V 6 4\niload_0\nifeq P11\niload_0\niconst_1\nisub\ninvokestatic Main r (I)V\nreturn\nP11:\ngetstatic Main A Z\nifeq P19\nnop\nnop\nP19:\nreturn\nend\nmethod 0009 main ([Ljava/lang/String;)V 6 4\nsipush {depth}\ninvokestatic Main r (I)V\nreturn\nend\n"
    )?;
    Ok(Vec::from_slice(alloc, text.as_bytes())?)
}

/// The run of such a method. Where both branches return together, each level takes 7 rounds, and what is around them 10; where each
/// branch returns by itself, 8 and 12.
pub fn recursion<K: Picker>(alloc: Global, depth: u32, picker: &mut K) -> Result<Counts, Fail> {
    let source = recursion_source(alloc, depth)?;
    rounds_of(alloc, source.as_slice(), b"option A Main A\n", picker)
}

/// A program whose 16 configurations call a method at 16 places; it calls itself so many times.
fn sixteen_source(alloc: Global, depth: u32) -> Result<Vec<u8>, Fail> {
    let mut text = Vec::new(alloc);
    text.extend_from_slice(
        b"class 0021 Main java/lang/Object\nfield 0009 A Z\nfield 0009 B Z\nfield 0009 C Z\nfield 0009 D Z\nmethod 0009 r (I)V 6 4\niload_0\nifeq P\niload_0\niconst_1\nisub\ninvokestatic Main r (I)V\nP:\nreturn\nend\nmethod 0009 main ([Ljava/lang/String;)V 6 4\n",
    )?;
    text.extend_from_slice(format!(in alloc; "sipush {depth}\nistore_1\n")?.as_bytes())?;
    text.extend_from_slice(
        b"getstatic Main A Z\ngetstatic Main B Z\niconst_1\nishl\niadd\ngetstatic Main C Z\niconst_2\nishl\niadd\ngetstatic Main D Z\niconst_3\nishl\niadd\ntableswitch 0 END",
    )?;
    for i in 0..16 {
        text.extend_from_slice(format!(in alloc; " L{i}")?.as_bytes())?;
    }
    for i in 0..16 {
        text.extend_from_slice(format!(in alloc;
            "\nL{i}:\niload_1\ninvokestatic Main r (I)V\nreturn"
        )?.as_bytes())?;
    }
    text.extend_from_slice(b"\nEND:\nreturn\nend\n")?;
    Ok(text)
}

/// The run of such a program. 16 rounds come before the groups are apart; where each of them then goes down by itself, it takes 7
/// a level and 6.
pub fn sixteen<K: Picker>(alloc: Global, depth: u32, picker: &mut K) -> Result<Counts, Fail> {
    let source = sixteen_source(alloc, depth)?;
    let model = b"option A Main A\noption B Main B\noption C Main C\noption D Main D\n";
    rounds_of(alloc, source.as_slice(), model, picker)
}
