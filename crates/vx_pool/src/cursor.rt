//! A place in a file, from which numbers and bytes are read. Numbers stand with their highest byte first (JVMS 4).

ghost use Rattle.std.specs.Prelude.{◌≡◌, ◌+◌, ◌^◌, ◌<◌, ◌==◌, length, Err, OnOk, OnErr, IfOk};
ghost use Rattle.vx_pool.specs.Place.{start, file_length};
ghost use Rattle.vx_pool.specs.Reading.{Gives, GivesBy, Answers, number, room, bytes};

use crate::fault::ClassFault;
use byteorder::{BigEndian, ByteOrder};
use std::marker::Model;

/// A read needs more bytes than the file has.
const SHORT: u8 = 3;

/// A place in a file: how many bytes stand before it, and the bytes from there to the end. It only goes forward.
#[derive(Debug, Drop)]
pub struct Cursor<'a> {
    rest: &'a [u8],
    at: u64,
}

impl<'a> Model for Cursor<'a> {
    ghost use Rattle.std.specs.Prelude.{◌+◌, ◌^◌, ◌<◌, length};
    ghost use Rattle.vx_pool.specs.Place.{Place};

    ghost Value = { Place };

    ghost view = { λ c. record { at = c.at; rest = c.rest.now } };

    ghost invariant = { λ c. c.at + length c.rest.now < 2 ^ 64 };
}

impl<'a> Cursor<'a> {
    /// The first place of a file.
    pub fn new(bytes: &'a [u8]) -> Cursor<'a>
        ensures { result ≡ start bytes.now }
    {
        Cursor { rest: bytes, at: 0 }
    }

    /// A cursor at the same place.
    pub fn copy(&self) -> Cursor<'a>
        ensures { result ≡ self.now }
    {
        Cursor {
            rest: self.rest,
            at: self.at,
        }
    }

    /// How many bytes stand before it.
    pub fn at(&self) -> u64
        ensures value { result ≡ self.now.at }
        ensures within { self.now.at + length self.now.rest < 2 ^ 64 }
    {
        self.at
    }

    /// The bytes from there to the end.
    pub fn rest(&self) -> &'a [u8]
        ensures { result.now ≡ self.now.rest }
    {
        self.rest
    }

    /// Whether no byte is left.
    pub fn is_at_end(&self) -> bool
        ensures { result ≡ (length self.now.rest == 0) }
    {
        self.rest.is_empty()
    }

    /// The length of the file.
    pub fn file_length(&self) -> u64
        ensures { result ≡ file_length self.now }
    {
        self.at + self.rest.len() as u64
    }

    /// A number of one byte. Where they are not there the refusal has reason 3 at the file's length, and the cursor stays.
    #[tactic(auto, unfolding(crate::specs::Reading::number))]
    pub fn u1(&mut self) -> Result<u8, ClassFault>
        ensures value { Gives result self.new (number 1 self.old) }
        ensures moved { OnOk result (self.new.at ≡ self.old.at + 1) }
        ensures stays { OnErr result (self.new ≡ self.old) }
    {
        if self.rest.is_empty() {
            return Err(ClassFault::Bad {
                at: self.at,
                reason: SHORT,
            });
        }
        let value = self.rest[0];
        self.rest = &self.rest[1..];
        self.at += 1;
        Ok(value)
    }

    /// A number of two bytes. Where they are not there the refusal has reason 3 at the file's length, and the cursor stays.
    #[tactic(auto, unfolding(crate::specs::Reading::number))]
    pub fn u2(&mut self) -> Result<u16, ClassFault>
        ensures value { Gives result self.new (number 2 self.old) }
        ensures moved { OnOk result (self.new.at ≡ self.old.at + 2) }
        ensures stays { OnErr result (self.new ≡ self.old) }
    {
        if self.rest.len() < 2 {
            return Err(ClassFault::Bad {
                at: self.at + self.rest.len() as u64,
                reason: SHORT,
            });
        }
        let value = BigEndian::read_u16(self.rest);
        self.rest = &self.rest[2..];
        self.at += 2;
        Ok(value)
    }

    /// A number of four bytes. Where they are not there the refusal has reason 3 at the file's length, and the cursor stays.
    #[tactic(auto, unfolding(crate::specs::Reading::number))]
    pub fn u4(&mut self) -> Result<u32, ClassFault>
        ensures value { Gives result self.new (number 4 self.old) }
        ensures moved { OnOk result (self.new.at ≡ self.old.at + 4) }
        ensures stays { OnErr result (self.new ≡ self.old) }
    {
        if self.rest.len() < 4 {
            return Err(ClassFault::Bad {
                at: self.file_length(),
                reason: SHORT,
            });
        }
        let value = BigEndian::read_u32(self.rest);
        self.rest = &self.rest[4..];
        self.at += 4;
        Ok(value)
    }

    /// A number of eight bytes. Where they are not there the refusal has reason 3 at the file's length, and the cursor stays.
    #[tactic(auto, unfolding(crate::specs::Reading::number))]
    pub fn u8(&mut self) -> Result<u64, ClassFault>
        ensures value { Gives result self.new (number 8 self.old) }
        ensures moved { OnOk result (self.new.at ≡ self.old.at + 8) }
        ensures stays { OnErr result (self.new ≡ self.old) }
    {
        if self.rest.len() < 8 {
            return Err(ClassFault::Bad {
                at: self.file_length(),
                reason: SHORT,
            });
        }
        let value = BigEndian::read_u64(self.rest);
        self.rest = &self.rest[8..];
        self.at += 8;
        Ok(value)
    }

    /// Whether so many bytes are there; else the refusal has reason 3 at the file's length.
    #[tactic(auto, unfolding(crate::specs::Reading::room))]
    pub fn room(&self, count: usize) -> Result<(), ClassFault>
        ensures value { Answers result (room count self.now) }
        ensures there { OnOk result (self.now.at + count < 2 ^ 64) }
    {
        if self.rest.len() < count {
            return Err(ClassFault::Bad {
                at: self.file_length(),
                reason: SHORT,
            });
        }
        Ok(())
    }

    /// So many bytes. Where they are not there the refusal has reason 3 at the file's length, and the cursor stays.
    #[tactic(auto, unfolding(crate::specs::Reading::bytes))]
    pub fn take(&mut self, count: usize) -> Result<&'a [u8], ClassFault>
        ensures value { GivesBy (λ x. x.now) result self.new (bytes count self.old) }
        ensures moved { OnOk result (self.new.at ≡ self.old.at + count) }
        ensures taken { IfOk result (λ x. length x.now ≡ count) }
        ensures stays { OnErr result (self.new ≡ self.old) }
    {
        if self.rest.len() < count {
            return Err(ClassFault::Bad {
                at: self.at + self.rest.len() as u64,
                reason: SHORT,
            });
        }
        let (front, rest) = self.rest.split_at(count);
        self.rest = rest;
        self.at += count as u64;
        Ok(front)
    }
}
