ghost use Rattle.std.specs.Prelude.{◌≡◌, ◌<◌, ◌≤◌, ◌+◌, ◌-◌, ◌^◌, ℕ, List, [], ◌∷◌, ◌++◌, length, min, vec_len, OnOk, OnErr, IfErr};
ghost use Rattle.mac_io.specs.Causes.{HasCause, capped};
ghost use Rattle.mac_io.specs.Files.{AreFilesOfBytes};
ghost use Rattle.mac_io.specs.Calls.{FetchesFrom};
ghost use Rattle.mac_io.specs.Search.{source_limit};

use crate::headers::{FileId, Form, Headers, Located};
use crate::path_text::path_text;
use crate::search;
use crate::search::Stores;
use crate::shelf::Fetched;
use crate::store::HeaderStore;
use mac_base::{Bytes, NoMemory};
use std::alloc::Global;

/// The most bytes that a source file may have.
const SOURCE_LIMIT: usize = 16_777_216;

/// A store with its label.
#[derive(Drop)]
struct Labelled {
    label: Bytes,
    store: Box<dyn HeaderStore>,
}

impl Labelled {
    fn fetch(&mut self, name: &[u8], into: &mut Vec<u8>) -> Fetched
        ensures label { self.new.label ≡ self.old.label }
        ensures answer { FetchesFrom (files self.old.store) name.now source_limit result into.old.items into.new.items }
        ensures same { files self.new.store ≡ files self.old.store }
        ensures bytes { AreFilesOfBytes (files self.old.store) }
        ensures place { folder self.new.store ≡ folder self.old.store }
        ensures cause { HasCause (count self.old.store) (count self.new.store) (result ≡ Fetched.Failed) }
    {
        self.store.fetch(name, SOURCE_LIMIT, into)
    }

    fn faults(&self) -> u64
        ensures { result ≡ count self.now.store }
    {
        self.store.faults()
    }
}

/// A list of header stores, each with a label.
#[derive(Drop)]
pub struct SearchPath {
    alloc: Global,
    stores: Vec<Labelled>,
    /// How many faults the stores had that were dropped.
    retired: u64,
    ghost numbered: { vec_len stores ≤ 4294967295 },
}

impl SearchPath {
    /// A path without stores, whose count of faults is 0.
    pub fn new(alloc: Global) -> SearchPath
        ensures stores { ⟦<SearchPath as Headers>⟧.stores result ≡ [] }
        ensures count { ⟦<SearchPath as Headers>⟧.count result ≡ 0 }
        ensures counts { ⟦<SearchPath as Headers>⟧.counts result ≡ record { retired = 0; stores = [] } }
        ensures folders { ⟦<SearchPath as Headers>⟧.folders result ≡ [] }
    {
        SearchPath {
            alloc,
            stores: Vec::new(alloc),
            retired: 0,
        }
    }

    /// Puts a store after the others. Where memory runs out both come back, and nothing has changed.
    pub fn push(
        &mut self,
        label: Bytes,
        store: Box<dyn HeaderStore>,
    ) -> Result<(), (Bytes, Box<dyn HeaderStore>)>
        requires { length (⟦<SearchPath as Headers>⟧.stores self.old) < 4294967295 }
        ensures stores { OnOk result (⟦<SearchPath as Headers>⟧.stores self.new ≡ ⟦<SearchPath as Headers>⟧.stores self.old ++ (label, files store) ∷ []) }
        ensures count { OnOk result (⟦<SearchPath as Headers>⟧.count self.new ≡ capped (⟦<SearchPath as Headers>⟧.count self.old + count store)) }
        ensures counts { OnOk result (⟦<SearchPath as Headers>⟧.counts self.new ≡ (let before = ⟦<SearchPath as Headers>⟧.counts self.old in record { retired = before.retired; stores = before.stores ++ count store ∷ [] })) }
        ensures folders { OnOk result (⟦<SearchPath as Headers>⟧.folders self.new ≡ ⟦<SearchPath as Headers>⟧.folders self.old ++ folder store ∷ []) }
        ensures back { IfErr result (λ back. back ≡ (label, store)) }
        ensures same { OnErr result ((⟦<SearchPath as Headers>⟧.stores self.new ≡ ⟦<SearchPath as Headers>⟧.stores self.old) × (⟦<SearchPath as Headers>⟧.count self.new ≡ ⟦<SearchPath as Headers>⟧.count self.old)) }
    {
        match self.stores.push(Labelled { label, store }) {
            Ok(()) => Ok(()),
            Err(back) => {
                let Labelled { label, store } = back.value;
                Err((label, store))
            }
        }
    }
}

impl Stores for SearchPath {
    ghost use Rattle.std.specs.Prelude.{◌+◌, map, sum_by};
    ghost use Rattle.mac_io.specs.Causes.{capped};

    ghost stores = { λ path. map (λ s. (s.label, (HeaderStore-box s.store).files s.store.value)) path.stores.items };

    ghost count = { λ path. capped (path.retired + sum_by (λ s. (HeaderStore-box s.store).count s.store.value) path.stores.items) };

    ghost counts = { λ path. record { retired = path.retired; stores = map (λ s. (HeaderStore-box s.store).count s.store.value) path.stores.items } };

    ghost folders = { λ path. map (λ s. (HeaderStore-box s.store).folder s.store.value) path.stores.items };

    fn number(&self) -> u32 {
        self.stores.len() as u32
    }

    fn fetch(&mut self, store: u32, name: &[u8], into: &mut Vec<u8>) -> Fetched {
        self.stores[store as usize].fetch(name, into)
    }
}

impl Headers for SearchPath {
    ghost use Rattle.std.specs.Prelude.{◌+◌, map, sum_by};
    ghost use Rattle.mac_io.specs.Causes.{capped};

    ghost stores = { λ path. map (λ s. (s.label, (HeaderStore-box s.store).files s.store.value)) path.stores.items };

    ghost count = { λ path. capped (path.retired + sum_by (λ s. (HeaderStore-box s.store).count s.store.value) path.stores.items) };

    ghost counts = { λ path. record { retired = path.retired; stores = map (λ s. (HeaderStore-box s.store).count s.store.value) path.stores.items } };

    ghost folders = { λ path. map (λ s. (HeaderStore-box s.store).folder s.store.value) path.stores.items };

    fn find(&mut self, includer: &FileId, form: Form, name: &[u8], into: &mut Vec<u8>) -> Located {
        search::find(self.alloc, self, includer, form, name, into)
    }

    fn primary(&mut self, name: &[u8], into: &mut Vec<u8>) -> Located {
        search::ask(self.alloc, self, 0, name, into)
    }

    fn path_of(&self, id: &FileId) -> Result<Bytes, NoMemory> {
        let label = self.stores[id.store as usize].label.as_slice();
        path_text(self.alloc, label, id.name.as_slice())
    }

    fn clear(&mut self) {
        self.retired = Headers::faults(self);
        self.stores.clear();
    }

    fn faults(&self) -> u64 {
        let mut faults = self.retired;
        for store in self.stores.iter() {
            faults = faults.saturating_add(store.faults());
        }
        faults
    }

    ghost use Rattle.std.proofs.Common.{ap, sym};
    ghost use Rattle.std.proofs.lemmas.List.Sums.{sum-map};

    ghost counted = { λ path. ap (λ n. capped (path.retired + n)) (sym (sum-map _ path.stores.items)) };
}
