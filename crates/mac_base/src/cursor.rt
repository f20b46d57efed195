ghost use Rattle.std.specs.Prelude.{◌≡◌, ◌≤◌, ◌<◌, length, IfSome};
ghost use Rattle.std.specs.Option.{option_copied};
ghost use Rattle.mac_base.specs.Input.{Gives};
ghost use Rattle.mac_base.specs.Fields.{bytes_at, number_at, uleb_at, sleb_at, text_at, before_nul};

use crate::leb::{digits_of, signed, unsigned};
use memchr::memchr;
use std::marker::Model;
use thiserror::Error;

/// Why a field can't be read. `at` is its first byte.
#[derive(Clone, Copy, Debug, PartialEq, Eq, Error)]
pub enum CursorFault {
    /// The bytes end before the field does.
    #[error("Cut at {at:#x}")]
    Cut { at: u64 },
    /// A LEB128 number doesn't fit 64 bits.
    #[error("Leb at {at:#x}")]
    Leb { at: u64 },
    /// No NUL ends a string.
    #[error("NoNul at {at:#x}")]
    NoNul { at: u64 },
}

/// Reads the fields of a section one after another (DWARF 5, 7.4 and 7.6). In numbers the lowest byte is first. After a
/// fault it is where it was.
#[derive(Drop)]
pub struct Cursor<'a> {
    bytes: &'a [u8],
    at: usize,
}

impl<'a> Model for Cursor<'a> {
    ghost use Rattle.std.specs.Prelude.{◌≤◌, length};
    ghost use Rattle.mac_base.specs.Input.{Input};

    ghost Value = { Input };

    ghost view = { λ c. record { bytes = c.bytes.now; at = c.at } };

    ghost invariant = { λ c. c.at ≤ length c.bytes.now };
}

impl<'a> Cursor<'a> {
    /// A cursor at a place of the bytes.
    pub fn new(bytes: &'a [u8], at: usize) -> Cursor<'a>
        requires { at ≤ length bytes.now }
        ensures { result ≡ record { bytes = bytes.now; at = at } }
    {
        Cursor { bytes, at }
    }

    /// The place, in bytes from the first.
    pub fn at(&self) -> usize
        ensures place { result ≡ self.now.at }
        ensures within { result ≤ length self.now.bytes }
    {
        self.at
    }

    /// A second cursor at the same place.
    pub fn fork(&self) -> Cursor<'a>
        ensures { result ≡ self.now }
    {
        Cursor {
            bytes: self.bytes,
            at: self.at,
        }
    }

    /// A number of one byte.
    pub fn u8(&mut self) -> Result<u8, CursorFault>
        ensures { Gives (λ n. n) self.old self.new result (number_at 1 self.old) }
    {
        match &self.bytes[self.at..] {
            [byte, ..] => {
                self.at += 1;
                Ok(*byte)
            }
            _ => Err(CursorFault::Cut { at: self.at as u64 }),
        }
    }

    /// A number of two bytes.
    pub fn u16(&mut self) -> Result<u16, CursorFault>
        ensures { Gives (λ n. n) self.old self.new result (number_at 2 self.old) }
    {
        match &self.bytes[self.at..] {
            [a, b, ..] => {
                self.at += 2;
                Ok(u16::from_le_bytes([*a, *b]))
            }
            _ => Err(CursorFault::Cut { at: self.at as u64 }),
        }
    }

    /// A number of three bytes.
    pub fn u24(&mut self) -> Result<u32, CursorFault>
        ensures { Gives (λ n. n) self.old self.new result (number_at 3 self.old) }
    {
        match &self.bytes[self.at..] {
            [a, b, c, ..] => {
                self.at += 3;
                Ok(u32::from_le_bytes([*a, *b, *c, 0]))
            }
            _ => Err(CursorFault::Cut { at: self.at as u64 }),
        }
    }

    /// A number of four bytes.
    pub fn u32(&mut self) -> Result<u32, CursorFault>
        ensures { Gives (λ n. n) self.old self.new result (number_at 4 self.old) }
    {
        match &self.bytes[self.at..] {
            [a, b, c, d, ..] => {
                self.at += 4;
                Ok(u32::from_le_bytes([*a, *b, *c, *d]))
            }
            _ => Err(CursorFault::Cut { at: self.at as u64 }),
        }
    }

    /// A number of eight bytes.
    pub fn u64(&mut self) -> Result<u64, CursorFault>
        ensures { Gives (λ n. n) self.old self.new result (number_at 8 self.old) }
    {
        match &self.bytes[self.at..] {
            [a, b, c, d, e, f, g, h, ..] => {
                self.at += 8;
                Ok(u64::from_le_bytes([*a, *b, *c, *d, *e, *f, *g, *h]))
            }
            _ => Err(CursorFault::Cut { at: self.at as u64 }),
        }
    }

    /// A number in ULEB128, however many needless zeros it ends in; `Leb` for 2^64 or more.
    pub fn uleb(&mut self) -> Result<u64, CursorFault>
        ensures { Gives (λ n. n) self.old self.new result (uleb_at self.old) }
    {
        let at = self.at as u64;
        let Some(digits) = digits_of(&self.bytes[self.at..]) else {
            return Err(CursorFault::Cut { at });
        };
        let Some(number) = unsigned(digits) else {
            return Err(CursorFault::Leb { at });
        };
        self.at += digits.len();
        Ok(number)
    }

    /// A number in SLEB128; `Leb` for one below -2^63 or from 2^63 on.
    pub fn sleb(&mut self) -> Result<i64, CursorFault>
        ensures { Gives (λ n. n) self.old self.new result (sleb_at self.old) }
    {
        let at = self.at as u64;
        let Some(digits) = digits_of(&self.bytes[self.at..]) else {
            return Err(CursorFault::Cut { at });
        };
        let Some(number) = signed(digits) else {
            return Err(CursorFault::Leb { at });
        };
        self.at += digits.len();
        Ok(number)
    }

    /// The next `n` bytes.
    pub fn bytes(&mut self, n: u64) -> Result<&'a [u8], CursorFault>
        ensures { Gives (λ s. s.now) self.old self.new result (bytes_at n self.old) }
    {
        let rest = &self.bytes[self.at..];
        let n = n as usize;
        if rest.len() < n {
            return Err(CursorFault::Cut { at: self.at as u64 });
        }
        self.at += n;
        Ok(&rest[..n])
    }

    /// The bytes before the next NUL, which is passed over.
    pub fn cstr(&mut self) -> Result<&'a [u8], CursorFault>
        ensures { Gives (λ s. s.now) self.old self.new result (text_at self.old) }
    {
        let Some(text) = text_of(&self.bytes[self.at..]) else {
            return Err(CursorFault::NoNul { at: self.at as u64 });
        };
        self.at += text.len() + 1;
        Ok(text)
    }
}

/// The bytes before the first NUL.
fn text_of(rest: &[u8]) -> Option<&[u8]>
    ensures text { option_copied result ≡ before_nul rest.now }
    ensures within { IfSome result (λ text. length text.now < length rest.now) }
{
    let end = memchr(0, rest)?;
    Some(&rest[..end])
}
