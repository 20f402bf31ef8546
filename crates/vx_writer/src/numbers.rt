//! Numbers of a class file, the highest byte first. A number that has more bytes than stand in the file is written by
//! its lowest ones.

ghost use Rattle.std.specs.Prelude.{◌≡◌, ◌++◌, length, OnErr, OnOk};
ghost use Rattle.vx_class.specs.Spelling.{u2, u4};
ghost use Rattle.byteorder.specs.Endian.{big_bytes};

use byteorder::{BigEndian, ByteOrder};
use std::alloc::AllocError;

/// Bytes behind those that are there. Here as below want of memory leaves them as they were.
pub fn put(out: &mut Vec<u8>, bytes: &[u8]) -> Result<(), AllocError>
    ensures ok { OnOk result (out.new.items ≡ out.old.items ++ bytes.now) }
    ensures err { OnErr result (out.new.items ≡ out.old.items) }
{
    out.extend_from_slice(bytes)
}

pub fn put_u1(out: &mut Vec<u8>, number: u8) -> Result<(), AllocError>
    ensures ok { OnOk result (out.new.items ≡ out.old.items ++ big_bytes 1 number) }
    ensures err { OnErr result (out.new.items ≡ out.old.items) }
{
    out.push(number)?;
    Ok(())
}

pub fn put_u2(out: &mut Vec<u8>, number: u16) -> Result<(), AllocError>
    ensures ok { OnOk result (out.new.items ≡ out.old.items ++ u2 number) }
    ensures err { OnErr result (out.new.items ≡ out.old.items) }
{
    let mut bytes = [0u8; 2];
    BigEndian::write_u16(&mut bytes, number);
    put(out, &bytes)
}

pub fn put_u4(out: &mut Vec<u8>, number: u32) -> Result<(), AllocError>
    ensures ok { OnOk result (out.new.items ≡ out.old.items ++ u4 number) }
    ensures err { OnErr result (out.new.items ≡ out.old.items) }
{
    let mut bytes = [0u8; 4];
    BigEndian::write_u32(&mut bytes, number);
    put(out, &bytes)
}

pub fn put_u8(out: &mut Vec<u8>, number: u64) -> Result<(), AllocError>
    ensures ok { OnOk result (out.new.items ≡ out.old.items ++ big_bytes 8 number) }
    ensures err { OnErr result (out.new.items ≡ out.old.items) }
{
    let mut bytes = [0u8; 8];
    BigEndian::write_u64(&mut bytes, number);
    put(out, &bytes)
}

/// How many there are, in two bytes.
pub fn put_count(out: &mut Vec<u8>, count: usize) -> Result<(), AllocError>
    ensures ok { OnOk result (out.new.items ≡ out.old.items ++ u2 count) }
    ensures err { OnErr result (out.new.items ≡ out.old.items) }
{
    put_u2(out, (count % 0x1_0000) as u16)
}

/// How many there are, in four bytes.
pub fn put_length(out: &mut Vec<u8>, length: usize) -> Result<(), AllocError>
    ensures ok { OnOk result (out.new.items ≡ out.old.items ++ u4 length) }
    ensures err { OnErr result (out.new.items ≡ out.old.items) }
{
    put_u4(out, (length % 0x1_0000_0000) as u32)
}
