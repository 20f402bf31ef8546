//! The bytes of main. Indices of the pool are counted from that of the first reference.

ghost use Rattle.std.specs.Prelude.{◌≡◌, ◌++◌, ◌∷◌, ◌+◌, ◌*◌, ◌<◌, [], IfOk, OnOk, flat_map, if◌then◌else◌, length};
ghost use Rattle.vx_link.specs.Written.{item_bytes, two_bytes};
ghost use Rattle.vx_gen.specs.Workload.{all_option_items, choice_items, first_items, last_items, main_items, object_items, step_items};

use std::alloc::{AllocError, Global};

/// Puts an opcode with an index.
fn put_naming(bytes: &mut Vec<u8>, opcode: u8, index: u16) -> Result<(), AllocError>
    ensures { OnOk result (bytes.new.items ≡ bytes.old.items ++ opcode ∷ two_bytes index) }
{
    bytes.push(opcode)?;
    bytes.push((index / 256) as u8)?;
    bytes.push((index % 256) as u8)?;
    Ok(())
}

/// Puts iconst_3 or iconst_1.
fn put_constant(bytes: &mut Vec<u8>, odd: bool) -> Result<(), AllocError>
    ensures { OnOk result (bytes.new.items ≡ bytes.old.items ++ (if odd then 0x06 else 0x04) ∷ []) }
{
    if odd {
        bytes.push(0x06)?;
    } else {
        bytes.push(0x04)?;
    }
    Ok(())
}

/// Puts what makes an object by its constructor, and the instruction that stores it.
fn put_object(bytes: &mut Vec<u8>, at: u16, reference: u16, store: u8) -> Result<(), AllocError>
    requires { at + 6 * reference < 60000 }
    ensures { OnOk result (bytes.new.items ≡ bytes.old.items ++ flat_map (item_bytes at) (object_items at reference store)) }
{
    let index = at + 6 * reference;
    put_naming(bytes, 0xbb, index + 1)?;
    bytes.push(0x59)?;
    put_naming(bytes, 0xb7, index)?;
    bytes.push(store)?;
    Ok(())
}

/// Puts what makes the number, a Keep and a Turn.
fn put_first(bytes: &mut Vec<u8>, at: u16) -> Result<(), AllocError>
    requires { at < 50000 }
    ensures { OnOk result (bytes.new.items ≡ bytes.old.items ++ flat_map (item_bytes at) (first_items at)) }
{
    bytes.extend_from_slice(&[0x03, 0x3c])?;
    put_object(bytes, at, 0, 0x4d)?;
    put_object(bytes, at, 1, 0x4e)?;
    Ok(())
}

/// Puts the choice of an option's object, by the number of its reference.
fn put_choice(bytes: &mut Vec<u8>, at: u16, reference: u16) -> Result<(), AllocError>
    requires { at + 6 * reference < 60000 }
    ensures { OnOk result (bytes.new.items ≡ bytes.old.items ++ flat_map (item_bytes at) (choice_items reference)) }
{
    put_naming(bytes, 0xb2, at + 6 * reference)?;
    bytes.extend_from_slice(&[0x99, 0, 7, 0x2d, 0xa7, 0, 4, 0x2c])?;
    Ok(())
}

/// Puts the step of the object.
fn put_step(bytes: &mut Vec<u8>, at: u16, odd: bool) -> Result<(), AllocError>
    requires { at < 50000 }
    ensures { OnOk result (bytes.new.items ≡ bytes.old.items ++ flat_map (item_bytes at) (step_items odd)) }
{
    bytes.push(0x1b)?;
    put_constant(bytes, odd)?;
    put_naming(bytes, 0xb9, at + 12)?;
    bytes.extend_from_slice(&[3, 0, 0x3c])?;
    Ok(())
}

/// Puts the steps of options, from the number of a reference on.
fn put_options(bytes: &mut Vec<u8>, at: u16, seed: u64, names: &[&str]) -> Result<(), AllocError>
    requires { at + 6 * length names.now < 50000 }
    ensures { OnOk result (bytes.new.items ≡ bytes.old.items ++ flat_map (item_bytes at) (all_option_items 5 seed names.now)) }
{
    let mut rest = seed;
    let mut reference = 5;
    for _name in names {
        put_choice(bytes, at, reference)?;
        put_step(bytes, at, rest % 2 == 1)?;
        rest /= 2;
        reference += 1;
    }
    Ok(())
}

/// Puts what prints the number.
fn put_last(bytes: &mut Vec<u8>, at: u16) -> Result<(), AllocError>
    requires { at < 50000 }
    ensures { OnOk result (bytes.new.items ≡ bytes.old.items ++ flat_map (item_bytes at) last_items) }
{
    put_naming(bytes, 0xb2, at + 18)?;
    bytes.push(0x1b)?;
    put_naming(bytes, 0xb6, at + 24)?;
    bytes.push(0xb1)?;
    Ok(())
}

/// The bytes of main.
pub fn main_bytes(alloc: Global, at: u16, seed: u64, names: &[&str]) -> Result<Vec<u8>, AllocError>
    requires { at + 6 * length names.now < 50000 }
    ensures { IfOk result (λ bytes. bytes.items ≡ flat_map (item_bytes at) (main_items at seed names.now)) }
{
    let mut bytes = Vec::new(alloc);
    put_first(&mut bytes, at)?;
    put_options(&mut bytes, at, seed, names)?;
    put_last(&mut bytes, at)?;
    Ok(bytes)
}
