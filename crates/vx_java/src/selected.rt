//! Selection of methods.

use vx_value::MethodId;

/// Which method a call selects (JVMS 6.5 `invokevirtual`, `invokeinterface`, `invokespecial`, Java SE 8).
#[derive(Clone, Copy)]
pub enum Selected {
    Method(MethodId),
    /// There is none, or it has no body: the call throws `AbstractMethodError`.
    Abstract,
    /// Several superinterfaces give one: the call throws `IncompatibleClassChangeError`.
    Conflict,
}
