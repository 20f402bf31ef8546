//! Which methods of a small program calls from main lead to.

use crate::programs::linked;
use std::alloc::Global;
use std::test::Fail;
use vx_reached::reached;

/// A class whose `main` calls `f`, which calls `g`; nothing calls `h`, which calls `main` and `k`; an initialiser calls `i`.
const CALLING: &[u8] = b"class 0021 Main java/lang/Object
method 0009 main ([Ljava/lang/String;)V 4 2
invokestatic Main f ()V
return
end
method 0009 f ()V 4 2
invokestatic Main g ()V
return
end
method 0009 g ()V 4 2
invokestatic Main f ()V
return
end
method 0009 h ()V 4 2
aconst_null
invokestatic Main main ([Ljava/lang/String;)V
invokestatic Main k ()V
return
end
method 0009 i ()V 4 2
return
end
method 0009 k ()V 4 2
return
end
method 0008 <clinit> ()V 4 2
invokestatic Main i ()V
return
end
";

/// Main, f, g, i and the initialiser are reached; h and k are not.
const MARKS: &[bool] = &[true, true, true, false, true, false, true];

fn are_reached(alloc: Global) -> Result<bool, Fail> {
    let program = linked(alloc, CALLING)?;
    let marks = reached(alloc, &program)?;
    Ok(marks.as_slice().starts_with(MARKS))
}

#[test]
fn calls_from_main_and_initialisers_lead_on(rt: HostRuntime) -> Result<(), Fail> {
    assert!(rt; are_reached(rt.alloc())?);
    Ok(())
}
