ghost use Rattle.std.specs.Prelude.{◌≡◌, ◌≤◌, ◌<◌, ◌++◌, [], ◌∷◌, ℕ, List, Err, length, map, All, IfOk, OnOk};
ghost use Rattle.std.specs.List.{flat_map};
ghost use Rattle.std.specs.Option.{option_map};
ghost use Rattle.mac_base.specs.Values.{offset_width};
ghost use Rattle.macro_opcodes.specs.Writing.{Fits, shape_of};
ghost use Rattle.string_sections.specs.Pool.{pool_bytes};
ghost use Rattle.object_writer.specs.Elf.{section_limit};
ghost use Rattle.object_writer.specs.Relocations.{table_of};
ghost use Rattle.object_writer.specs.Strings.{texts_in, own_texts, root_texts, note_all};
ghost use Rattle.object_writer.specs.Units.{Item, define_item, undef_item, event_item, root_item};
ghost use Rattle.object_writer.specs.Growing.{Appends, IsStarted, IsUnit};
ghost use Rattle.object_writer.specs.Object.{root_items, root_line};
ghost use Rattle.unit_splitter.specs.Laws.{IsThere};

use crate::fault::WriteFault;
use crate::layout::{Layout, piece_macro};
use crate::relocation::{Target, push_field};
use crate::strings::{StringPlace, Strings};
use mac_base::{Event, NoMemory};
use macro_opcodes::{OutEntry, write_entry};
use std::alloc::Global;
use unit_header::write_header;
use unit_splitter::RootEntry;

/// The contents of a section that is relocated, and the entries of its relocation section.
#[derive(Drop)]
pub struct Relocated {
    pub contents: Vec<u8>,
    pub relocations: Vec<u8>,
}

/// How many bytes an offset has.
pub fn width_of(wide: bool) -> u64
    ensures { result ≡ offset_width wide }
{
    if wide { 8 } else { 4 }
}

/// The header of a macro unit, whose line offset, where there is one, refers to a line table. There is room for so many
/// entries and relocations.
pub fn start_unit(
    alloc: Global,
    wide: bool,
    line: Option<Target>,
    entries: usize,
    referring: usize,
) -> Result<Relocated, NoMemory>
    ensures { IfOk result (λ unit. IsStarted wide line unit) }
{
    let mut contents = Vec::with_capacity(alloc, entries_room(wide, entries))?;
    let mut relocations = Vec::with_capacity(alloc, relocations_room(referring))?;
    write_header(&mut contents, zero_of(line), wide)?;
    let place = (contents.len() as u64).saturating_sub(width_of(wide));
    push_field(&mut relocations, wide, place, line)?;
    Ok(Relocated {
        contents,
        relocations,
    })
}

/// How many bytes entries with an opcode, a line below 2,097,152 and an offset have at most, besides a header and the
/// closing 0. Longer ones make the unit grow.
fn entries_room(wide: bool, count: usize) -> usize {
    count
        .saturating_mul(4 + width_of(wide) as usize)
        .saturating_add(16)
}

/// How many bytes so many relocations have, and one more for a line table.
fn relocations_room(count: usize) -> usize {
    count.saturating_add(1).saturating_mul(24)
}

/// The offset 0, where there is one.
fn zero_of(line: Option<Target>) -> Option<u64>
    ensures { result ≡ option_map (λ _. 0) line }
{
    match line {
        None => None,
        Some(_) => Some(0),
    }
}

impl Relocated {
    /// Appends an entry, and the relocation of the offset at its end where that refers to a place.
    fn push_entry(
        &mut self,
        wide: bool,
        entry: &OutEntry<'_>,
        target: Option<Target>,
    ) -> Result<(), NoMemory>
        requires { Fits wide (shape_of entry.now) }
        ensures { OnOk result (Appends wide self.old self.new (record { entry = entry.now; target = target } ∷ [])) }
    {
        write_entry(&mut self.contents, entry, wide)?;
        let place = (self.contents.len() as u64).saturating_sub(width_of(wide));
        push_field(&mut self.relocations, wide, place, target)
    }

    /// Appends a definition.
    fn push_define(
        &mut self,
        wide: bool,
        symbol: u32,
        line: u64,
        place: StringPlace,
    ) -> Result<(), NoMemory>
        ensures { OnOk result (Appends wide self.old self.new (define_item symbol place line ∷ [])) }
    {
        match place {
            StringPlace::Offset(addend) => {
                self.push_entry(
                    wide,
                    &OutEntry::DefineStr { line, at: 0 },
                    Some(Target { symbol, addend }),
                )
            }
            StringPlace::Index(index) => self.push_entry(
                wide,
                &OutEntry::DefineIndex { line, index },
                None,
            ),
        }
    }

    /// Appends an undefinition.
    fn push_undef(
        &mut self,
        wide: bool,
        symbol: u32,
        line: u64,
        place: StringPlace,
    ) -> Result<(), NoMemory>
        ensures { OnOk result (Appends wide self.old self.new (undef_item symbol place line ∷ [])) }
    {
        match place {
            StringPlace::Offset(addend) => {
                self.push_entry(
                    wide,
                    &OutEntry::UndefStr { line, at: 0 },
                    Some(Target { symbol, addend }),
                )
            }
            StringPlace::Index(index) => self.push_entry(
                wide,
                &OutEntry::UndefIndex { line, index },
                None,
            ),
        }
    }

    /// Appends an event, whose string it adds to the strings.
    fn push_event(
        &mut self,
        wide: bool,
        symbol: u32,
        event: &Event,
        strings: &mut Strings,
    ) -> Result<(), WriteFault>
        ensures noted { OnOk result (strings.new ≡ note_all strings.old (texts_in event.now)) }
        ensures item { OnOk result (Appends wide self.old self.new (event_item symbol strings.old event.now ∷ [])) }
        ensures large { result ≡ Err WriteFault.TooLarge → section_limit < length (pool_bytes (note_all strings.old (texts_in event.now)).pool) }
    {
        match event {
            Event::Define { line, text } => {
                let place = strings.add(text.as_slice())?;
                self.push_define(wide, symbol, *line, place)?;
            }
            Event::Undef { line, name } => {
                let place = strings.add(name.as_slice())?;
                self.push_undef(wide, symbol, *line, place)?;
            }
            Event::Start { line, file } => {
                self.push_entry(
                    wide,
                    &OutEntry::Start {
                        line: *line,
                        file: *file as u64,
                    },
                    None,
                )?;
            }
            Event::End => self.push_entry(wide, &OutEntry::End, None)?,
        }
        Ok(())
    }

    /// Appends an entry of the root.
    fn push_root_entry(
        &mut self,
        wide: bool,
        layout: Layout,
        entry: &RootEntry,
        strings: &mut Strings,
    ) -> Result<(), WriteFault>
        requires few { layout.pieces ≤ 16384 }
        requires fit { IsThere layout.pieces entry.now }
        ensures noted { OnOk result (strings.new ≡ note_all strings.old (own_texts entry.now)) }
        ensures item { OnOk result (Appends wide self.old self.new (root_item layout strings.old entry.now ∷ [])) }
        ensures large { result ≡ Err WriteFault.TooLarge → section_limit < length (pool_bytes (note_all strings.old (own_texts entry.now)).pool) }
    {
        match entry {
            RootEntry::Own(event) => self.push_event(wide, layout.strs(), event, strings),
            RootEntry::Import(number) => {
                let target = Target {
                    symbol: piece_macro(*number),
                    addend: 0,
                };
                self.push_entry(wide, &OutEntry::Import { at: 0 }, Some(target))?;
                Ok(())
            }
        }
    }
}

impl Relocated {
    /// Appends the 0 that ends a unit.
    fn end(&mut self) -> Result<(), NoMemory>
        ensures contents { OnOk result (self.new.contents.items ≡ self.old.contents.items ++ 0 ∷ []) }
        ensures relocations { self.new.relocations.items ≡ self.old.relocations.items }
    {
        self.contents.push(0)?;
        Ok(())
    }

    /// Appends events, whose strings it adds to the strings.
    fn push_events(
        &mut self,
        wide: bool,
        symbol: u32,
        events: &[Event],
        strings: &mut Strings,
    ) -> Result<(), WriteFault>
        ensures noted { OnOk result (strings.new ≡ note_all strings.old (flat_map texts_in events.now)) }
        ensures items { (later : List (List ℕ)) → OnOk result (Appends wide self.old self.new (map (event_item symbol (note_all strings.new later)) events.now)) }
        ensures large { result ≡ Err WriteFault.TooLarge → section_limit < length (pool_bytes (note_all strings.old (flat_map texts_in events.now)).pool) }
    {
        for event in events {
            self.push_event(wide, symbol, event, strings)?;
        }
        Ok(())
    }

    /// Appends entries of the root.
    fn push_root_entries(
        &mut self,
        wide: bool,
        layout: Layout,
        entries: &[RootEntry],
        strings: &mut Strings,
    ) -> Result<(), WriteFault>
        requires few { layout.pieces ≤ 16384 }
        requires fit { All (IsThere layout.pieces) entries.now }
        ensures noted { OnOk result (strings.new ≡ note_all strings.old (root_texts entries.now)) }
        ensures items { (later : List (List ℕ)) → OnOk result (Appends wide self.old self.new (map (root_item layout (note_all strings.new later)) entries.now)) }
        ensures large { result ≡ Err WriteFault.TooLarge → section_limit < length (pool_bytes (note_all strings.old (root_texts entries.now)).pool) }
    {
        for entry in entries {
            self.push_root_entry(wide, layout, entry, strings)?;
        }
        Ok(())
    }
}

/// The macro unit of a piece, whose strings it adds to the strings.
pub fn piece_unit(
    alloc: Global,
    wide: bool,
    symbol: u32,
    events: &[Event],
    strings: &mut Strings,
) -> Result<Relocated, WriteFault>
    ensures noted { OnOk result (strings.new ≡ note_all strings.old (flat_map texts_in events.now)) }
    ensures unit { (later : List (List ℕ)) → IfOk result (λ unit. IsUnit wide None unit (map (event_item symbol (note_all strings.new later)) events.now)) }
    ensures large { result ≡ Err WriteFault.TooLarge → section_limit < length (pool_bytes (note_all strings.old (flat_map texts_in events.now)).pool) }
{
    let mut unit = start_unit(alloc, wide, None, events.len(), events.len())?;
    unit.push_events(wide, symbol, events, strings)?;
    unit.end()?;
    Ok(unit)
}

/// The macro unit of the root, which has the line table, and whose strings it adds to the strings.
pub fn root_unit(
    alloc: Global,
    wide: bool,
    layout: Layout,
    entries: &[RootEntry],
    strings: &mut Strings,
) -> Result<Relocated, WriteFault>
    requires few { layout.pieces ≤ 16384 }
    requires fit { All (IsThere layout.pieces) entries.now }
    ensures noted { OnOk result (strings.new ≡ note_all strings.old (root_texts entries.now)) }
    ensures unit { IfOk result (λ unit. IsUnit wide (root_line layout) unit (root_items layout strings.new entries.now)) }
    ensures large { result ≡ Err WriteFault.TooLarge → section_limit < length (pool_bytes (note_all strings.old (root_texts entries.now)).pool) }
{
    let line = Target {
        symbol: layout.lines(),
        addend: 0,
    };
    let referring = if strings.offsets.is_some() {
        0
    } else {
        entries.len()
    };
    let mut unit = start_unit(alloc, wide, Some(line), entries.len(), referring)?;
    unit.push_root_entries(wide, layout, entries, strings)?;
    unit.end()?;
    Ok(unit)
}
