ghost use Rattle.std.specs.Prelude.{◌≡◌, ◌<◌, [], Some, None, Err, length, IfOk, OnOk};
ghost use Rattle.string_sections.specs.Pool.{offset_in, pool_bytes};
ghost use Rattle.object_writer.specs.Elf.{section_limit};

use crate::fault::WriteFault;
use indexmap::IndexSet;
use mac_base::NoMemory;
use std::alloc::Global;
use std::marker::Model;
use string_sections::StrPool;

/// The strings of an object.
#[derive(Drop)]
pub struct Strings {
    /// Those of `.debug_str`.
    pub pool: StrPool,
    /// The offsets of those of the root, where its definitions have their strings by index.
    pub offsets: Option<Offsets>,
}

/// A list of different offsets, which are found by their value.
#[derive(Drop)]
pub struct Offsets {
    set: IndexSet<u32>,
}

impl Model for Offsets {
    ghost use Rattle.std.specs.Prelude.{List, ℕ};

    ghost Value = { List ℕ };

    ghost view = { λ o. o.set.keys };
}

impl Offsets {
    ghost use Rattle.object_writer.specs.Strings.{add_offset, index_in};

    /// No offsets. Takes no memory.
    pub fn new(alloc: Global) -> Offsets
        ensures { result ≡ [] }
    {
        Offsets {
            set: IndexSet::new(alloc),
        }
    }

    /// Adds an offset where it is not there yet, and says which it is.
    pub fn add(&mut self, at: u32) -> Result<u64, NoMemory>
        ensures index { IfOk result (λ index. index ≡ index_in self.old at) }
        ensures added { OnOk result (self.new ≡ add_offset self.old at) }
    {
        let (index, _) = self.set.insert_full(at)?;
        Ok(index as u64)
    }

    /// The offsets in order.
    pub fn as_slice(&self) -> &[u32]
        ensures { result.now ≡ self.now }
    {
        self.set.as_slice()
    }
}

/// How an entry says which string is its own.
#[derive(Clone, Copy, Debug)]
pub enum StringPlace {
    /// By an offset into `.debug_str`.
    Offset(u32),
    /// By an index into `.debug_str_offsets`.
    Index(u64),
}

impl Strings {
    ghost use Rattle.object_writer.specs.Strings.{note, no_strings, keeping};
    ghost use Rattle.object_writer.specs.Units.{string_place};

    /// No strings. Takes no memory.
    pub fn new(alloc: Global) -> Strings
        ensures { result ≡ no_strings }
    {
        Strings {
            pool: StrPool::new(alloc),
            offsets: None,
        }
    }

    /// From here on strings have an index, or not.
    pub fn keep_offsets(&mut self, alloc: Global, kept: bool)
        ensures { self.new ≡ keeping kept self.old }
    {
        self.offsets = if kept {
            Some(Offsets::new(alloc))
        } else {
            None
        };
    }

    /// Adds a string, and says how it is named.
    pub fn add(&mut self, text: &[u8]) -> Result<StringPlace, WriteFault>
        ensures place { IfOk result (λ place. place ≡ string_place self.old text.now) }
        ensures noted { OnOk result (self.new ≡ note self.old text.now) }
        ensures large { result ≡ Err WriteFault.TooLarge → section_limit < length (pool_bytes (note self.old text.now).pool) }
    {
        let at = self.pool.add(text)?;
        match &mut self.offsets {
            None => Ok(StringPlace::Offset(at)),
            Some(offsets) => Ok(StringPlace::Index(offsets.add(at)?)),
        }
    }
}
