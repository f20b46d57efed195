ghost use Rattle.std.specs.Prelude.{◌≡◌, length, take_while, IfOk, OnOk, OnErr};
ghost use Rattle.std.specs.Option.{option_map, option_copied};
ghost use Rattle.std.specs.FinMap as finite;
ghost use Rattle.mac_base.specs.Names.{is_identifier_byte, name_of};
ghost use Rattle.macro_table.specs.Tables.{entry_value};

use crate::entry::Entry;
use mac_base::{Bytes, NoMemory, Paths, Place};
use std::alloc::Global;
use std::collections::BTreeMap;
use std::marker::Model;

/// The macro definitions that hold at a place, by name.
#[derive(Drop)]
pub struct Table {
    alloc: Global,
    entries: BTreeMap<Vec<u8>, Entry>,
}

impl Model for Table {
    ghost use Rattle.std.specs.Prelude.{ℕ, map};
    ghost use Rattle.std.specs.FinMap as finite;
    ghost use Rattle.macro_table.specs.Tables.{TableOf, entry_value};
    ghost use Rattle.macro_table.specs.Codes.{coded_table};

    ghost Value = { TableOf ℕ };

    ghost coded = { coded_table };

    ghost view = { λ t. finite.from_entries (map (λ e. (e.0.items, entry_value e.1)) t.entries.entries) };
}

impl Table {
    /// A table without definitions.
    pub fn new(alloc: Global) -> Table
        ensures { result ≡ finite.empty }
    {
        Table {
            alloc,
            entries: BTreeMap::new(alloc),
        }
    }

    /// Makes this text, which begins with the name, the definition of its name. All other names keep theirs.
    pub fn define(&mut self, text: &[u8], place: &Place) -> Result<(), NoMemory>
        ensures ok { OnOk result (self.new ≡ finite.insert self.old (name_of text.now) (entry_value (record { text = text.now; place = place.now }))) }
        ensures err { OnErr result (self.new ≡ self.old) }
    {
        let name = Vec::from_slice(self.alloc, name_of(text))?;
        let text = Bytes::from_slice(self.alloc, text)?;
        let place = place.copy()?;
        match self.entries.insert(name, Entry { text, place }) {
            Ok(_) => Ok(()),
            Err(_) => Err(NoMemory),
        }
    }

    /// Takes the definition of this name away, where it has one. All other names keep theirs.
    pub fn undef(&mut self, name: &[u8])
        ensures { self.new ≡ finite.remove self.old name.now }
    {
        let _ = self.entries.remove(name);
    }

    /// The definition of this name.
    pub fn get(&self, name: &[u8]) -> Option<&Entry>
        ensures { option_map entry_value (option_copied result) ≡ finite.get self.now name.now }
    {
        self.entries.get(name)
    }

    /// All names that have a definition, in the order of their bytes.
    pub fn names(&self) -> Result<Paths, NoMemory>
        ensures { IfOk result (λ names. names ≡ finite.keys self.now) }
    {
        let mut names = Paths::new(self.alloc);
        for name in self.entries.keys() {
            names.push(Bytes::from_slice(self.alloc, name.as_slice())?)?;
        }
        Ok(names)
    }
}

/// The name with which the text of a macro definition begins: the longest prefix of bytes of an identifier.
pub fn name_of(text: &[u8]) -> &[u8]
    ensures { result.now ≡ name_of text.now }
{
    &text[..name_length(text)]
}

fn name_length(text: &[u8]) -> usize
    ensures { result ≡ length (take_while is_identifier_byte text.now) }
{
    text.iter()
        .take_while(|byte| is_identifier_byte(**byte))
        .count()
}

fn is_identifier_byte(byte: u8) -> bool
    ensures { result ≡ is_identifier_byte byte }
{
    byte.is_ascii_alphanumeric() || byte == b'_' || byte == b'$' || byte >= 0x80
}
