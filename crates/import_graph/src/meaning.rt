ghost use Rattle.std.specs.Prelude.{◌≡◌, ℕ, ◌<◌, List, length, IfOk};
ghost use Rattle.string_sections.specs.Strings.{string_of};
ghost use Rattle.mac_base.specs.SectionBytes.{SectionBytes};
ghost use Rattle.macro_opcodes.specs.Entry.{operand_of, entry_of};
ghost use Rattle.import_graph.specs.Meaning.{Lent, text_of, path_of, string_found, target_of, meaning};
ghost use Rattle.import_graph.specs.Numbers.{IsInside, IsLookup, Says, Fits, paths_of, meaning_of};
ghost use Rattle.mac_base.specs.ItemLines.{path_in};
ghost use Rattle.import_graph.specs.Nodes.{IsNumbered};

use crate::spliced::Spliced;
use macro_opcodes::{Operand, RawEntry};
use string_sections::{OffsetsView, string_at};
use unit_header::{Opcode, UnitKind};

/// The files of one line table among those of all that were read: the number of the first, and the one behind the last.
#[derive(Clone, Copy, Debug, PartialEq, Eq)]
pub struct FileRange {
    pub first: u32,
    pub end: u32,
}

/// What an entry says, once its string or file is looked up.
#[derive(Clone, Copy)]
pub enum Meaning<'a> {
    /// An entry of its own.
    Plain(Spliced<'a>),
    /// All entries of the unit at this offset.
    Imports(u64),
    /// Nothing, as an entry of a vendor's opcode.
    Nothing,
}

/// Where the strings and units are looked up that the entries of a root name.
#[derive(Drop)]
pub struct Lookup<'a> {
    /// `.debug_macro`.
    pub macros: &'a [u8],
    /// `.debug_str`.
    pub strs: &'a [u8],
    /// `.debug_str_offsets`, in the root's width.
    pub offsets: OffsetsView<'a>,
    /// Where the root's string offsets begin.
    pub base: Option<u64>,
}

impl<'a> Lookup<'a> {
    /// What an entry says, in a unit with this line table.
    pub fn meaning(
        &self,
        files: Option<FileRange>,
        entry: RawEntry<'a>,
    ) -> Result<Meaning<'a>, UnitKind>
        ensures says { (s : SectionBytes) (lent : Lent) (paths : List (List ℕ)) → IsLookup self.now s lent → Fits paths files →
            Says (meaning_of paths) result (meaning s lent (paths_of paths files) (entry_of entry.entry)) }
        ensures numbered { IfOk result (λ found. (paths : List (List ℕ)) → Fits paths files → IsNumbered (length paths) found) }
        ensures inside { IfOk result (λ found. IsInside (length self.now.macros.now) found) }
    {
        let line = entry.line;
        match Opcode::of(entry.opcode) {
            Opcode::Define | Opcode::DefineStrp | Opcode::DefineStrx => {
                let text = self.text(entry.operand)?;
                Ok(Meaning::Plain(Spliced::Define { line, text }))
            }
            Opcode::Undef | Opcode::UndefStrp | Opcode::UndefStrx => {
                let name = self.text(entry.operand)?;
                Ok(Meaning::Plain(Spliced::Undef { line, name }))
            }
            Opcode::StartFile => {
                let file = file_number(files, entry.operand)?;
                Ok(Meaning::Plain(Spliced::Start { line, file }))
            }
            Opcode::EndFile => Ok(Meaning::Plain(Spliced::End)),
            Opcode::Import => Ok(Meaning::Imports(self.target(entry.operand)?)),
            Opcode::DefineSup | Opcode::UndefSup | Opcode::ImportSup => Err(
                UnitKind::Supplementary,
            ),
            Opcode::Other => Ok(Meaning::Nothing),
        }
    }

    /// The text of a definition, or a name.
    fn text(&self, operand: Operand<'a>) -> Result<&'a [u8], UnitKind>
        ensures { Says (λ text. text.now) result (text_of self.now.strs.now self.now.offsets self.now.base (operand_of operand.entry)) }
    {
        match operand {
            Operand::Text(text) => Ok(text),
            Operand::Str(off) => self.string(off),
            Operand::Index(index) => {
                let Some(base) = self.base else {
                    return Err(UnitKind::NoStrBase);
                };
                match self.offsets.at(base, index) {
                    Ok(off) => self.string(off),
                    Err(_) => Err(UnitKind::StrxRange),
                }
            }
            _ => Ok(&[]),
        }
    }

    /// The string at an offset.
    fn string(&self, off: u64) -> Result<&'a [u8], UnitKind>
        ensures { Says (λ text. text.now) result (string_found (string_of self.now.strs.now off)) }
    {
        match string_at(self.strs, off) {
            Ok(text) => Ok(text),
            Err(_) => Err(UnitKind::StrRange),
        }
    }

    /// The offset of the unit that an import names.
    fn target(&self, operand: Operand<'_>) -> Result<u64, UnitKind>
        ensures says { Says (λ off. off) result (target_of self.now.macros.now (operand_of operand.entry)) }
        ensures inside { IfOk result (λ off. off < length self.now.macros.now) }
    {
        match operand {
            Operand::Macro(off) if off < self.macros.len() as u64 => Ok(off),
            _ => Err(UnitKind::ImportRange),
        }
    }
}

/// The number of the path of a file that begins.
fn file_number(files: Option<FileRange>, operand: Operand<'_>) -> Result<u32, UnitKind>
    ensures says { (paths : List (List ℕ)) → Fits paths files → Says (path_in paths) result (path_of (paths_of paths files) (operand_of operand.entry)) }
    ensures numbered { IfOk result (λ file. (paths : List (List ℕ)) → Fits paths files → file < length paths) }
{
    let Operand::File(index) = operand else {
        return Err(UnitKind::FileIndex);
    };
    let Some(range) = files else {
        return Err(UnitKind::NoLineTable);
    };
    let number = index.saturating_add(u64::from(range.first));
    if number < u64::from(range.end) {
        Ok(number as u32)
    } else {
        Err(UnitKind::FileIndex)
    }
}
