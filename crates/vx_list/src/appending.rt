//! Lists that are lent to be appended to, and that want of memory leaves as they were.

ghost use Rattle.std.specs.Prelude.{◌≡◌, ◌++◌, ◌∷◌, [], OnErr, OnOk, take};

use std::alloc::AllocError;

/// Appends one value. Want of memory leaves the list as it was.
pub fn put_one<T: Copy>(list: &mut Vec<T>, item: T) -> Result<(), AllocError>
    ensures ok { OnOk result (list.new.items ≡ list.old.items ++ item ∷ []) }
    ensures err { OnErr result (list.new.items ≡ list.old.items) }
{
    list.push(item)?;
    Ok(())
}

/// The answer of a call that appended to a list. Where it is want of memory, the list is cut back to so many values.
pub fn or_cut_back<T: Drop, R>(
    put: Result<R, AllocError>,
    list: &mut Vec<T>,
    held: usize,
) -> Result<R, AllocError>
    ensures same { result ≡ put }
    ensures ok { OnOk result (list.new.items ≡ list.old.items) }
    ensures err { OnErr result (list.new.items ≡ take held list.old.items) }
{
    if put.is_err() {
        list.truncate(held);
    }
    put
}
