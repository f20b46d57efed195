ghost use Rattle.std.specs.Prelude.{◌≡◌};
ghost use Rattle.std.specs.Option.{option_map};
ghost use Rattle.mac_base.specs.SectionBytes.{bytes_of};
ghost use Rattle.info_roots.specs.Faults.{Says, Answers};
ghost use Rattle.info_roots.specs.Entries.{text_of, entry_of};
ghost use Rattle.info_roots.specs.Texts.{string_by, offset_text, index_text, texts_by, root_by};

use crate::entry::{Entry, Text};
use crate::fault::{InfoFault, InfoKind};
use crate::root::Root;
use mac_base::{Bytes, Sections};
use std::alloc::Global;
use string_sections::{OffsetsView, string_at};

/// The root of an entry of the unit at `at`, whose `macros` is this: its strings are looked up, first those with an
/// offset, then those with an index, in the order of the entry.
pub fn root_of<'a>(
    alloc: Global,
    s: &Sections<'a>,
    at: u64,
    wide: bool,
    entry: &Entry<'a>,
    macros: u64,
) -> Result<Root, InfoFault>
    ensures { Answers (λ root. root) result (root_by (bytes_of s.now) at wide (entry_of entry.now) macros) }
{
    let (name, dir) = texts(s, at, wide, entry)?;
    Ok(Root {
        name: Bytes::from_slice(alloc, name)?,
        dir: Bytes::from_slice(alloc, dir)?,
        macros,
        line: entry.line,
        str_base: entry.str_base,
        wide,
    })
}

/// The name and the directory.
#[tactic(auto, unfolding(crate::specs::Texts::texts_by))]
fn texts<'a>(
    s: &Sections<'a>,
    at: u64,
    wide: bool,
    entry: &Entry<'a>,
) -> Result<(&'a [u8], &'a [u8]), InfoFault>
    ensures { Says (λ texts. (texts.0.now, texts.1.now)) result (texts_by (bytes_of s.now) at wide (entry_of entry.now)) }
{
    let name = by_offset(s, at, entry.name)?;
    let dir = by_offset(s, at, entry.dir)?;
    if entry.dir_first {
        let dir = by_index(s, at, wide, entry.str_base, dir)?;
        let name = by_index(s, at, wide, entry.str_base, name)?;
        Ok((name, dir))
    } else {
        let name = by_index(s, at, wide, entry.str_base, name)?;
        let dir = by_index(s, at, wide, entry.str_base, dir)?;
        Ok((name, dir))
    }
}

/// A string with an offset as the string itself. One that the entry lacks is empty.
fn by_offset<'a>(s: &Sections<'a>, at: u64, text: Option<Text<'a>>) -> Result<Text<'a>, InfoFault>
    ensures { Says text_of result (offset_text (bytes_of s.now) at (option_map text_of text.entry)) }
{
    match text {
        None => Ok(Text::Here(b"")),
        Some(Text::Str(off)) => string_there(s.strs, off, at),
        Some(Text::LineStr(off)) => string_there(s.line_strs, off, at),
        Some(text) => Ok(text),
    }
}

/// The string at an offset. `StrRange` where there is none.
fn string_there(section: &[u8], off: u64, at: u64) -> Result<Text<'_>, InfoFault>
    ensures { Says text_of result (string_by section.now off at) }
{
    match string_at(section, off) {
        Ok(text) => Ok(Text::Here(text)),
        Err(_) => Err(InfoFault::new(at, InfoKind::StrRange)),
    }
}

/// A string with an index as the string itself.
fn by_index<'a>(
    s: &Sections<'a>,
    at: u64,
    wide: bool,
    base: Option<u64>,
    text: Text<'a>,
) -> Result<&'a [u8], InfoFault>
    ensures { Says (λ text. text.now) result (index_text (bytes_of s.now) at wide base (text_of text.entry)) }
{
    let index = match text {
        Text::Here(text) => return Ok(text),
        Text::Index(index) => index,
        _ => return Ok(b""),
    };
    let Some(base) = base else {
        return Err(InfoFault::new(at, InfoKind::NoStrBase));
    };
    let Ok(off) = OffsetsView::new(s.str_offsets, wide).at(base, index) else {
        return Err(InfoFault::new(at, InfoKind::StrxRange));
    };
    match string_at(s.strs, off) {
        Ok(text) => Ok(text),
        Err(_) => Err(InfoFault::new(at, InfoKind::StrRange)),
    }
}
