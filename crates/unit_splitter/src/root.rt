ghost use Rattle.std.specs.Prelude.{◌≡◌, [], ◌∷◌, ◌++◌, length, OnOk, OnErr};

use mac_base::{Event, NoMemory};
use std::alloc::Global;
use std::marker::Model;

/// An entry of the macro unit of a root (DWARF 5, 6.3.2).
#[derive(Debug, Drop)]
pub enum RootEntry {
    /// An event of the translation unit.
    Own(Event),
    /// The entries of the piece of this number (6.3.2.3).
    Import(u32),
}

/// A list of entries of a root.
#[derive(Debug, Drop)]
pub struct RootEntries {
    items: Vec<RootEntry>,
}

impl Model for RootEntries {
    ghost use Rattle.std.specs.Prelude.{List};
    ghost use Rattle.unit_splitter.specs.declared.root.RootEntry.{RootEntry};

    ghost Value = { List RootEntry };

    ghost view = { λ e. e.items.items };
}

impl RootEntries {
    /// No entries. Takes no memory.
    pub fn new(alloc: Global) -> RootEntries
        ensures { result ≡ [] }
    {
        RootEntries {
            items: Vec::new(alloc),
        }
    }

    /// The same entries, without taking memory.
    pub fn from_vec(items: Vec<RootEntry>) -> RootEntries
        ensures { result ≡ items.items }
    {
        RootEntries { items }
    }

    /// The same entries, without taking memory.
    pub fn into_vec(self) -> Vec<RootEntry>
        ensures { result.items ≡ self }
    {
        let RootEntries { items } = self;
        items
    }

    /// Puts an entry at the end.
    pub fn push(&mut self, x: RootEntry) -> Result<(), NoMemory>
        ensures ok { OnOk result (self.new ≡ self.old ++ x ∷ []) }
        ensures err { OnErr result (self.new ≡ self.old) }
    {
        self.items.push(x)?;
        Ok(())
    }

    /// How many entries there are.
    pub fn len(&self) -> usize
        ensures { result ≡ length self.now }
    {
        self.items.len()
    }

    /// The entries in order.
    pub fn as_slice(&self) -> &[RootEntry]
        ensures { result.now ≡ self.now }
    {
        self.items.as_slice()
    }
}
