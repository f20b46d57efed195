ghost use Rattle.std.specs.Prelude.{◌≡◌, [], ◌∷◌, ◌++◌, IfOk};
ghost use Rattle.std.specs.List.{list_any};
ghost use Rattle.pp_unit.specs.Seen.{same_file};

use crate::event_log::path_numbers::PathNumbers;
use mac_base::NoMemory;
use mac_io::FileId;
use std::alloc::Global;
use std::collections::BTreeSet;
use std::marker::Model;

/// The files that contribute nothing any more, in the order in which they said so.
#[derive(Drop)]
pub struct OnceFiles {
    /// Each different name once.
    names: PathNumbers,
    /// The store of each file, and the number of its name.
    files: Vec<(u32, usize)>,
    /// The same, where they are found.
    known: BTreeSet<(u32, usize)>,
}

impl Model for OnceFiles {
    ghost use Rattle.std.specs.Prelude.{List, map};
    ghost use Rattle.mac_io.specs.declared.headers.FileId.{FileId};
    ghost use Rattle.pp_unit.specs.Recorded.{file_of, AreKnown};

    ghost Value = { List FileId };

    ghost view = { λ o. map (file_of o.names) o.files.items };

    ghost invariant = { λ o. AreKnown o.names o.files.items o.known };
}

impl OnceFiles {
    /// No files. Takes no memory.
    pub fn new(alloc: Global) -> OnceFiles
        ensures { result ≡ [] }
    {
        OnceFiles {
            names: PathNumbers::new(alloc),
            files: Vec::new(alloc),
            known: BTreeSet::new(alloc),
        }
    }

    /// Whether a file is among them.
    pub fn has(&self, id: &FileId) -> bool
        ensures { result ≡ list_any (same_file id.now) self.now }
    {
        match self.names.place_of(id.name.as_slice()) {
            Some(number) => self.known.contains(&(id.store, number)),
            None => false,
        }
    }

    /// The files with this one after them.
    pub fn with_file(self, id: &FileId) -> Result<OnceFiles, NoMemory>
        ensures { IfOk result (λ files. files ≡ self ++ id.now ∷ []) }
    {
        let OnceFiles {
            names,
            mut files,
            mut known,
        } = self;
        let name = id.name.as_slice();
        let number = names.number_of(name);
        let names = names.with_path(name)?;
        known.insert((id.store, number))?;
        files.push((id.store, number))?;
        Ok(OnceFiles {
            names,
            files,
            known,
        })
    }
}
