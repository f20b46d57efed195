ghost use Rattle.std.specs.Prelude.{◌≡◌, is_some};
ghost use Rattle.string_sections.specs.Strings.{string_of, Finds};

use crate::fault::StrFault;
use mac_base::{Cursor, end_of_strings};
use std::marker::Model;

/// The string at an offset of a string section, without its NUL (DWARF 5, 7.5.5). `Range` where the offset is not
/// inside the section or no NUL follows it.
pub fn string_at(section: &[u8], off: u64) -> Result<&[u8], StrFault>
    ensures { Finds (λ text. text.now) result (string_of section.now off) }
{
    let off = off as usize;
    if section.len() < off {
        return Err(StrFault::Range);
    }
    match Cursor::new(section, off).cstr() {
        Ok(text) => Ok(text),
        Err(_) => Err(StrFault::Range),
    }
}

/// A string section, with the place after its last NUL, so that many offsets are tested without a walk along their
/// strings.
#[derive(Drop)]
pub struct Strings<'a> {
    section: &'a [u8],
    end: usize,
}

impl<'a> Model for Strings<'a> {
    ghost use Rattle.std.specs.Prelude.{ℕ, List};
    ghost use Rattle.mac_base.specs.Strings.{IsStringsEnd};

    ghost Value = { List ℕ };

    ghost view = { λ s. s.section.now };

    ghost invariant = { λ s. IsStringsEnd s.section.now s.end };
}

impl<'a> Strings<'a> {
    /// The strings of a section. It is walked once, from its end up to the last NUL.
    pub fn new(section: &'a [u8]) -> Strings<'a>
        ensures { result ≡ section.now }
    {
        Strings {
            section,
            end: end_of_strings(section),
        }
    }

    /// The section.
    pub fn section(&self) -> &'a [u8]
        ensures { result.now ≡ self.now }
    {
        self.section
    }

    /// Whether a string is at an offset, in a time that depends on nothing.
    pub fn is_string(&self, off: u64) -> bool
        ensures { result ≡ is_some (string_of self.now off) }
    {
        off < self.end as u64
    }
}
