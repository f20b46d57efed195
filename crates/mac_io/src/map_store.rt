ghost use Rattle.std.specs.Prelude.{◌≡◌, ◌↔◌, length, Some, IsTrue};
ghost use Rattle.mac_io.specs.Causes.{HasCause};
ghost use Rattle.mac_io.specs.Files.{AreFilesOfBytes, files_of, are_distinct};
ghost use Rattle.mac_io.specs.Calls.{FetchesFrom};
ghost use Rattle.mac_io.specs.InMemory.{is_due, after_get};

use crate::map_shelf::MapShelf;
use crate::shelf::{Fetched, Shelf};
use crate::store::HeaderStore;
use mac_base::Paths;
use std::alloc::Global;
use std::marker::Model;

/// A store in memory: a shelf of which nothing is written.
#[derive(Drop)]
pub struct MapStore {
    shelf: MapShelf,
}

impl Model for MapStore {
    ghost use Rattle.mac_io.specs.InMemory.{MemoryShelf};
    ghost use Rattle.mac_io.specs.Codes.{coded_shelf};

    ghost Value = { MemoryShelf };

    ghost coded = { coded_shelf };

    ghost view = { λ s. s.shelf };
}

impl MapStore {
    /// A store with each content under the name at its place, whose calls of these numbers, counted from 1, fail.
    pub fn new(alloc: Global, names: Paths, contents: Paths, fails: Vec<u64>) -> MapStore
        requires even { length names ≡ length contents }
        requires distinct { IsTrue (are_distinct names) }
        ensures { result ≡ record { files = files_of names contents; log = record { failing = fails.items; calls = 0; faults = 0 } } }
    {
        MapStore {
            shelf: MapShelf::new(alloc, names, contents, fails),
        }
    }
}

impl HeaderStore for MapStore {
    ghost files = { λ store. Some store.files };

    ghost count = { λ store. store.log.faults };

    fn fetch(&mut self, name: &[u8], limit: usize, into: &mut Vec<u8>) -> Fetched
        ensures answer { FetchesFrom (Some self.old.files) name.now limit result into.old.items into.new.items }
        ensures same { Some self.new.files ≡ Some self.old.files }
        ensures bytes { AreFilesOfBytes (Some self.old.files) }
        ensures cause { HasCause self.old.log.faults self.new.log.faults (result ≡ Fetched.Failed) }
        ensures failed { IsTrue (is_due self.old.log) ↔ (result ≡ Fetched.Failed) }
        ensures after { self.new ≡ after_get self.old }
    {
        self.shelf.get(name, limit, into)
    }

    fn faults(&self) -> u64 {
        self.shelf.faults()
    }
}
