ghost use Rattle.std.specs.Prelude.{◌≡◌, ◌≤◌, length};
ghost use Rattle.mac_base.specs.SectionBytes.{bytes_of};
ghost use Rattle.info_roots.specs.Faults.{Answers};
ghost use Rattle.info_roots.specs.Units.{unit_at, fields_at, first_at};

use crate::abbreviation::Abbreviations;
use crate::dwarf::{DW_TAG_COMPILE_UNIT, DW_UT_COMPILE};
use crate::entry::read_entry;
use crate::fault::{InfoFault, InfoKind};
use crate::root::Root;
use crate::text::root_of;
use mac_base::{Cursor, Sections, Sizes, read_offset};
use std::alloc::Global;

/// Reads a unit from its version on: its root, if it has one.
pub fn read_unit<'a>(
    alloc: Global,
    s: &Sections<'a>,
    at: u64,
    wide: bool,
    cursor: &mut Cursor<'a>,
    abbreviations: &mut Abbreviations<'a>,
) -> Result<Option<Root>, InfoFault>
    requires { abbreviations.old.section ≡ s.now.abbrevs.now }
    ensures root { Answers (λ root. root) result (unit_at (bytes_of s.now) at wide cursor.old) }
    ensures kept { abbreviations.new.section ≡ abbreviations.old.section }
{
    let place = cursor.at() as u64;
    match cursor.u16()? {
        2..=4 => Ok(None),
        5 => read_fields(alloc, s, at, wide, cursor, abbreviations),
        _ => Err(InfoFault::new(place, InfoKind::Version)),
    }
}

/// The same of a unit of version 5, from its type on.
#[tactic(auto, unfolding(crate::specs::Units::fields_at))]
fn read_fields<'a>(
    alloc: Global,
    s: &Sections<'a>,
    at: u64,
    wide: bool,
    cursor: &mut Cursor<'a>,
    abbreviations: &mut Abbreviations<'a>,
) -> Result<Option<Root>, InfoFault>
    requires { abbreviations.old.section ≡ s.now.abbrevs.now }
    ensures root { Answers (λ root. root) result (fields_at (bytes_of s.now) at wide cursor.old) }
    ensures kept { abbreviations.new.section ≡ abbreviations.old.section }
{
    if cursor.u8()? != DW_UT_COMPILE {
        return Ok(None);
    }
    let address = cursor.u8()?;
    let place = cursor.at() as u64;
    let table = read_offset(cursor, wide)?;
    if s.abbrevs.len() as u64 <= table {
        return Err(InfoFault::new(place, InfoKind::AbbrevRange));
    }
    read_first(
        alloc,
        s,
        at,
        Sizes { wide, address },
        table as usize,
        cursor,
        abbreviations,
    )
}

/// The same from its first entry on, whose abbreviation is in the table at this place.
#[tactic(auto, unfolding(crate::specs::Units::first_at))]
fn read_first<'a>(
    alloc: Global,
    s: &Sections<'a>,
    at: u64,
    sizes: Sizes,
    table: usize,
    cursor: &mut Cursor<'a>,
    abbreviations: &mut Abbreviations<'a>,
) -> Result<Option<Root>, InfoFault>
    requires section { abbreviations.old.section ≡ s.now.abbrevs.now }
    requires within { table ≤ length s.now.abbrevs.now }
    ensures root { Answers (λ root. root) result (first_at (bytes_of s.now) at sizes table cursor.old) }
    ensures kept { abbreviations.new.section ≡ abbreviations.old.section }
{
    let place = cursor.at() as u64;
    let code = cursor.uleb()?;
    if code == 0 {
        return Ok(None);
    }
    abbreviations.look_up(alloc, table, code)?;
    let Some(abbreviation) = abbreviations.found() else {
        return Err(InfoFault::new(place, InfoKind::Abbrev));
    };
    if abbreviation.tag != DW_TAG_COMPILE_UNIT {
        return Ok(None);
    }
    let entry = read_entry(cursor, sizes, abbreviation.attributes.as_slice())?;
    match entry.macros {
        Some(macros) => Ok(Some(root_of(alloc, s, at, sizes.wide, &entry, macros)?)),
        None => Ok(None),
    }
}
