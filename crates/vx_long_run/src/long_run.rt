//! A long run over many options, and how many sets the space of diagrams knows in it.

use crate::rounds::{Counts, rounds_of};
use std::alloc::Global;
use std::test::Fail;
use vx_sched::LeastKey;

/// How many options there are. Each changes a value in every turn of a loop.
const OPTIONS: u32 = 20;

/// The model of the options.
fn model(alloc: Global) -> Result<Vec<u8>, Fail> {
    let mut text = Vec::new(alloc);
    for i in 0..OPTIONS {
        text.extend_from_slice(format!(in alloc; "option X{i} Main X{i}\n")?.as_bytes())?;
    }
    Ok(text)
}

/// A loop of so many turns. In each of them every option adds its own share of the counter to a value that is kept below 4.
fn source(alloc: Global, turns: u32) -> Result<Vec<u8>, Fail> {
    let mut text = Vec::new(alloc);
    text.extend_from_slice(b"class 0021 Main java/lang/Object\n")?;
    for i in 0..OPTIONS {
        text.extend_from_slice(format!(in alloc; "field 0009 X{i} Z\n")?.as_bytes())?;
    }
    text.extend_from_slice(b"method 0009 main ([Ljava/lang/String;)V 6 4\n")?;
    text.extend_from_slice(format!(in alloc;
        "sipush {turns}\nistore_2\nL:\niconst_0\nistore_1\n"
    )?.as_bytes())?;
    for i in 0..OPTIONS {
        let share = 11 + 37 * i;
        text.extend_from_slice(format!(in alloc;
            "iload_1\ngetstatic Main X{i} Z\niload_2\nsipush {share}\nimul\niconst_5\nishr\nimul\niadd\niconst_3\niand\nistore_1\n"
        )?.as_bytes())?;
    }
    text.extend_from_slice(
        b"iinc 2 -1\niload_2\nifne L\ngetstatic java/lang/System out Ljava/io/PrintStream;\ngetstatic Main X0 Z\ninvokevirtual java/io/PrintStream println (I)V\nreturn\nend\n",
    )?;
    Ok(text)
}

/// The run of 20 options with a loop of so many turns.
pub fn long_run(alloc: Global, turns: u32) -> Result<Counts, Fail> {
    let source = source(alloc, turns)?;
    let model = model(alloc)?;
    rounds_of(alloc, source.as_slice(), model.as_slice(), &mut LeastKey)
}
