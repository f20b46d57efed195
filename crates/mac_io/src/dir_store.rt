ghost use Rattle.std.specs.Prelude.{◌≡◌, ℕ, None, Some, IfOk};
ghost use Rattle.mac_io.specs.Search.{path_text};
ghost use Rattle.mac_io.specs.System.{Folder};

use crate::path_text::path_text;
use crate::real_file::{Wanted, fetch};
use crate::shelf::Fetched;
use crate::store::HeaderStore;
use mac_base::{Bytes, NoMemory};
use std::alloc::Global;
use std::marker::Model;
use std::rt::Files;

/// The files of a folder; of the working folder where its path is empty. It tells nothing of them; contracts see the path of
/// the folder and how often a call has failed.
#[derive(Drop)]
pub struct DirStore<R: Files + Drop> {
    alloc: Global,
    rt: R,
    folder: Bytes,
    faults: u64,
}

impl<R: Files + Drop> Model for DirStore<R> {
    ghost use Rattle.mac_io.specs.System.{Folder};

    ghost Value = { Folder };

    ghost view = { λ store. record { path = store.folder; faults = store.faults } };
}

impl<R: Files + Drop> DirStore<R> {
    /// The files of a folder, with no fault so far.
    pub fn new(alloc: Global, rt: R, folder: Bytes) -> DirStore<R>
        ensures { result ≡ record { path = folder; faults = 0 } }
    {
        DirStore {
            alloc,
            rt,
            folder,
            faults: 0,
        }
    }

    /// The path that is opened for a name.
    fn opened_path(&self, name: &[u8]) -> Result<Bytes, NoMemory>
        ensures { IfOk result (λ path. path ≡ path_text self.now.path name.now) }
    {
        path_text(self.alloc, self.folder.as_slice(), name)
    }
}

impl<R: Files + Drop> HeaderStore for DirStore<R> {
    ghost files = { λ _. None };

    ghost count = { λ store. store.faults };

    ghost folder = { λ store. Some store.path };

    fn fetch(&mut self, name: &[u8], limit: usize, into: &mut Vec<u8>) -> Fetched {
        let Ok(path) = self.opened_path(name) else {
            return Fetched::NoMemory;
        };
        let answer = fetch(&self.rt, Wanted::Header, path.as_slice(), limit, into);
        if matches!(answer, Fetched::Failed) {
            self.faults = self.faults.saturating_add(1);
        }
        answer
    }

    fn faults(&self) -> u64 {
        self.faults
    }
}
