ghost use Rattle.std.specs.Prelude.{◌≡◌, length, IfOk, OnOk};
ghost use Rattle.import_graph.specs.Numbers.{item_of};
ghost use Rattle.position_table.specs.Standing.{at_first, behind_one, table_in, AreKept};

use crate::files::{FileId, Files};
use crate::name::name_of;
use import_graph::Spliced;
use mac_base::{Frame, NoMemory, Place};
use macro_table::Table;
use std::alloc::Global;
use std::collections::BTreeMap;
use std::marker::Model;

/// A definition, and the file that it stands in.
#[derive(Clone, Copy)]
pub struct Definition<'g> {
    pub text: &'g [u8],
    pub line: u64,
    pub file: FileId,
}

/// What holds behind some entries. Of a definition only the number of its file is kept, so that one that doesn't last
/// costs the same however deep it stands.
#[derive(Drop)]
pub struct Draft<'g> {
    files: Files,
    /// The innermost file that is open.
    innermost: FileId,
    definitions: BTreeMap<&'g [u8], Definition<'g>>,
}

impl<'g> Model for Draft<'g> {
    ghost use Rattle.std.specs.Prelude.{◌<◌, length};
    ghost use Rattle.position_table.specs.Files.{frames_of};
    ghost use Rattle.position_table.specs.Standing.{Standing, coded_standing, pairs_of, table_in, AreKept};

    ghost Value = { Standing };

    ghost coded = { coded_standing };

    ghost view = { λ d. record { files = pairs_of (frames_of d.files d.innermost); table = table_in d.files d.definitions.entries } };

    ghost invariant = { λ d. (d.innermost.index < length d.files) × AreKept (length d.files) d.definitions.entries };
}

impl<'g> Draft<'g> {
    /// What holds before all entries.
    pub fn new(alloc: Global) -> Draft<'g>
        ensures { result ≡ at_first }
    {
        Draft {
            files: Files::new(alloc),
            innermost: FileId::none(),
            definitions: BTreeMap::new(alloc),
        }
    }

    /// Goes behind an entry more.
    pub fn pass(&mut self, entry: Spliced<'g>) -> Result<(), NoMemory>
        ensures { OnOk result (self.new ≡ behind_one self.old (item_of entry.entry)) }
    {
        match entry {
            Spliced::Define { line, text } => {
                let definition = Definition {
                    text,
                    line,
                    file: self.innermost,
                };
                match self.definitions.insert(name_of(text), definition) {
                    Ok(_) => {}
                    Err(_) => return Err(NoMemory),
                }
            }
            Spliced::Undef { name, .. } => {
                let _ = self.definitions.remove(&name);
            }
            Spliced::Start { line, file } => {
                self.innermost = self
                    .files
                    .begin(self.innermost, Frame { path: file, line })?;
            }
            Spliced::End => self.innermost = self.files.around(self.innermost),
        }
        Ok(())
    }

    /// The definitions, each with the files around it.
    pub fn into_table(self, alloc: Global) -> Result<Table, NoMemory>
        ensures { IfOk result (λ table. table ≡ self.entry.table) }
    {
        table_in(alloc, &self.files, &self.definitions)
    }
}

/// These definitions, each with the files around it.
fn table_in(
    alloc: Global,
    files: &Files,
    definitions: &BTreeMap<&[u8], Definition<'_>>,
) -> Result<Table, NoMemory>
    requires { AreKept (length files.now) definitions.now.entries }
    ensures { IfOk result (λ table. table ≡ table_in files.now definitions.now.entries) }
{
    let mut table = Table::new(alloc);
    for definition in definitions.values() {
        let frames = files.frames(alloc, definition.file)?;
        let place = Place {
            frames,
            line: definition.line,
        };
        table.define(definition.text, &place)?;
    }
    Ok(table)
}
