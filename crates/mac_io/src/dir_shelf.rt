ghost use Rattle.std.specs.Prelude.{◌≡◌, ℕ, None};

use crate::real_file::{Wanted, fetch};
use crate::replace::{NotWritten, write_file};
use crate::shelf::{Fetched, Put, Shelf};
use std::alloc::Global;
use std::marker::Model;
use std::rt::Files;

/// The files of the working folder, by path. It tells nothing of them; contracts see how often a call has failed. A regular
/// file that is stored is replaced whole; what is no regular file is written in place.
#[derive(Drop)]
pub struct DirShelf<R: Files + Drop> {
    alloc: Global,
    rt: R,
    faults: u64,
}

impl<R: Files + Drop> Model for DirShelf<R> {
    ghost use Rattle.std.specs.Prelude.{ℕ};

    ghost Value = { ℕ };

    ghost view = { λ shelf. shelf.faults };
}

impl<R: Files + Drop> DirShelf<R> {
    /// The files of the working folder, with no fault so far.
    pub fn new(alloc: Global, rt: R) -> DirShelf<R>
        ensures { result ≡ 0 }
    {
        DirShelf {
            alloc,
            rt,
            faults: 0,
        }
    }
}

impl<R: Files + Drop> Shelf for DirShelf<R> {
    ghost files = { λ _. None };

    ghost count = { λ shelf. shelf };

    fn get(&mut self, name: &[u8], limit: usize, into: &mut Vec<u8>) -> Fetched {
        let answer = fetch(&self.rt, Wanted::NamedFile, name, limit, into);
        if matches!(answer, Fetched::Failed) {
            self.faults = self.faults.saturating_add(1);
        }
        answer
    }

    fn put(&mut self, name: &[u8], bytes: &[u8]) -> Put {
        match write_file(&self.rt, self.alloc, name, bytes) {
            Ok(()) => Put::Done,
            Err(NotWritten::NoMemory) => Put::NoMemory,
            Err(NotWritten::Fault) => {
                self.faults = self.faults.saturating_add(1);
                Put::Failed
            }
        }
    }

    fn faults(&self) -> u64 {
        self.faults
    }
}
