ghost use Rattle.std.specs.Prelude.{◌≡◌, ◌+◌, ◌≤◌, length, take, drop, SomeIff};
ghost use Rattle.mac_base.specs.Fields.{little_endian};
ghost use Rattle.string_sections.specs.Offsets.{entry_place, entry_width, offset_of};
ghost use Rattle.string_sections.specs.Strings.{Finds};

use crate::fault::StrFault;
use std::marker::Model;

/// A section of string offsets, whose entries have 4 bytes, or 8 in the 64-bit format (DWARF 5, 7.4 and 7.26).
#[derive(Drop)]
pub struct OffsetsView<'a> {
    section: &'a [u8],
    wide: bool,
}

impl<'a> Model for OffsetsView<'a> {
    ghost use Rattle.string_sections.specs.Offsets.{OffsetTable};

    ghost Value = { OffsetTable };

    ghost view = { λ v. record { section = v.section.now; wide = v.wide } };
}

impl<'a> OffsetsView<'a> {
    /// The section with these bytes, whose entries have eight bytes where `wide` holds, and four elsewhere.
    pub fn new(section: &'a [u8], wide: bool) -> OffsetsView<'a>
        ensures { result ≡ record { section = section.now; wide = wide } }
    {
        OffsetsView { section, wide }
    }

    /// The entry of an index in the contribution whose entries begin at `base`, in bytes from the section's first.
    /// `Range` exactly where the entry is not inside the section, whatever the two numbers are.
    pub fn at(&self, base: u64, index: u64) -> Result<u64, StrFault>
        ensures { Finds (λ n. n) result (offset_of self.now base index) }
    {
        match place_of(base, index, self.wide, self.section.len()) {
            Some(place) => Ok(offset_at(self.section, place, self.wide)),
            None => Err(StrFault::Range),
        }
    }
}

/// Where an entry begins, if it ends within the first `len` bytes.
fn place_of(base: u64, index: u64, wide: bool, len: usize) -> Option<usize>
    ensures { SomeIff result (entry_place wide base index + entry_width wide ≤ len) (entry_place wide base index) }
{
    let width = if wide { 8 } else { 4 };
    let place = index.checked_mul(width)?.checked_add(base)?;
    if place.checked_add(width)? <= len as u64 {
        Some(place as usize)
    } else {
        None
    }
}

/// The entry at a place.
fn offset_at(section: &[u8], place: usize, wide: bool) -> u64
    requires { place + entry_width wide ≤ length section.now }
    ensures { result ≡ little_endian (take (entry_width wide) (drop place section.now)) }
{
    match &section[place..] {
        [a, b, c, d, e, f, g, h, ..] if wide => u64::from_le_bytes([
            *a, *b, *c, *d, *e, *f, *g, *h,
        ]),
        [a, b, c, d, ..] => u64::from(u32::from_le_bytes([*a, *b, *c, *d])),
        _ => 0,
    }
}
