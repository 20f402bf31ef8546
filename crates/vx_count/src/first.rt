//! The first settings of a set.

ghost use Rattle.std.specs.Prelude.{◌≡◌, ◌+◌, ◌≤◌, ◌++◌, ◌∷◌, [], IfOk, OnOk, length, take, if◌then◌else◌};
ghost use Rattle.vx_space.specs.Sets.{IsKnown};
ghost use Rattle.vx_count.specs.Behind.{ArePartsAt, settings_behind};
ghost use Rattle.vx_count.specs.Listed.{first_settings};

use std::alloc::{AllocError, Global};
use vx_space::{Config, Space};

/// The first n settings of a set, or all where there are fewer: off stands before on, and the first option changes slowest. Each
/// takes some steps for each option.
pub fn firsts<S: Space>(
    alloc: Global,
    space: &S,
    id: S::Id,
    n: u64,
) -> Result<Vec<Config>, AllocError>
    requires { IsKnown (S.sets space.now) id }
    ensures { IfOk result (λ found. found.items ≡ first_settings n (S.sets space.now).options ((S.sets space.now).test id)) }
{
    let mut found = Vec::new(alloc);
    let mut front = Vec::new(alloc);
    let left = space.options();
    push_firsts(alloc, space, &mut found, n, &mut front, left, id)?;
    Ok(found)
}

/// Two sets that are as this one where an option is off, and where it is on.
fn parts_at<S: Space>(space: &S, id: S::Id, option: u32) -> (S::Id, S::Id)
    requires { IsKnown (S.sets space.now) id }
    ensures { ArePartsAt (S.sets space.now) id option result.0 result.1 }
{
    match space.top(id) {
        Some(top) if top.0 == option => (top.1, top.2),
        _ => (id, id),
    }
}

/// Puts a setting, if the set has it.
fn push_member<S: Space>(
    alloc: Global,
    space: &S,
    found: &mut Vec<Config>,
    values: &[bool],
    id: S::Id,
) -> Result<(), AllocError>
    requires { IsKnown (S.sets space.now) id }
    ensures { OnOk result (found.new.items ≡ found.old.items ++ (if (S.sets space.now).test id values.now then values.now ∷ [] else [])) }
{
    let c = Config::new(alloc, values)?;
    if space.holds(id, &c) {
        found.push(c)?;
    }
    Ok(())
}

/// Puts the first settings of a set that begin with some values, until there are n in all. So many options are left.
#[cycle(members)]
fn push_firsts<S: Space>(
    alloc: Global,
    space: &S,
    found: &mut Vec<Config>,
    n: u64,
    front: &mut Vec<bool>,
    left: u32,
    id: S::Id,
) -> Result<(), AllocError>
    requires known { IsKnown (S.sets space.now) id }
    requires few { length found.old.items ≤ n }
    requires options { length front.old.items + left ≡ (S.sets space.now).options }
    ensures found { OnOk result (found.new.items ≡ take n (found.old.items ++ settings_behind front.old.items left ((S.sets space.now).test id))) }
    ensures front { OnOk result (front.new.items ≡ front.old.items) }
{
    if found.len() as u64 == n {
        return Ok(());
    }
    if space.is_never(id) {
        return Ok(());
    }
    if left == 0 {
        return push_member(alloc, space, found, front.as_slice(), id);
    }
    let option = space.options() - left;
    let parts = parts_at(space, id, option);
    push_part(alloc, space, found, n, front, false, left - 1, parts.0)?;
    push_part(alloc, space, found, n, front, true, left - 1, parts.1)?;
    Ok(())
}

/// Puts the first settings of a set that begin with some values and one more, until there are n in all. So many options are left.
#[cycle(members)]
fn push_part<S: Space>(
    alloc: Global,
    space: &S,
    found: &mut Vec<Config>,
    n: u64,
    front: &mut Vec<bool>,
    value: bool,
    left: u32,
    id: S::Id,
) -> Result<(), AllocError>
    requires known { IsKnown (S.sets space.now) id }
    requires few { length found.old.items ≤ n }
    requires options { length front.old.items + 1 + left ≡ (S.sets space.now).options }
    ensures found { OnOk result (found.new.items ≡ take n (found.old.items ++ settings_behind (front.old.items ++ value ∷ []) left ((S.sets space.now).test id))) }
    ensures front { OnOk result (front.new.items ≡ front.old.items) }
{
    front.push(value)?;
    push_firsts(alloc, space, found, n, front, left, id)?;
    front.pop();
    Ok(())
}
