ghost use Rattle.std.specs.Prelude.{◌≡◌, ◌↔◌, ◌<◌, ℕ, List, [], ◌∷◌, length, Option, IfOk, IsTrue};
ghost use Rattle.mac_io.specs.Causes.{HasCause, HasStoreCause, Counts, total};
ghost use Rattle.mac_io.specs.Files.{Files, AreFilesOfBytes};
ghost use Rattle.mac_io.specs.Search.{Finds, OnFound, candidates, label_of, path_text, told_by};

use mac_base::{Bytes, NoMemory};

/// A file that a search found: the number of its store on the path, from 0 on, and its name there.
#[derive(Debug, Drop)]
pub struct FileId {
    pub store: u32,
    pub name: Bytes,
}

/// How a header is named: between quotes, or between angle brackets.
#[derive(Clone, Copy, Debug, PartialEq, Eq)]
pub enum Form {
    Quote,
    Angle,
}

/// The answer of a search.
#[derive(Debug, Drop)]
pub enum Located {
    /// The file was appended.
    Found(FileId),
    /// No store has the file.
    Absent,
    /// The first that is there has more bytes than a source file may have.
    TooLong,
    /// A store has a fault, which it has counted.
    Failed,
    /// Memory ran out.
    NoMemory,
}

impl Located {
    /// Whether no store has the file.
    pub(crate) fn is_absent(&self) -> bool
        ensures { IsTrue result ↔ (self.now ≡ Located.Absent) }
    {
        matches!(self, Located::Absent)
    }
}

/// Where headers are looked for.
pub trait Headers {
    /// The label and the files of each store, in order; a store may not tell its files.
    ghost stores: { Self → List (List ℕ × Option Files) };

    /// How often a call has failed.
    ghost count: { Self → ℕ };

    /// The count of faults of each store, and what was counted of stores that were dropped.
    ghost counts: { Self → Counts };

    /// The folder that each store is over, in order, where it is over one.
    ghost folders: { Self → List (Option (List ℕ)) };

    /// Looks for a header that a file names, and appends it where it has at most 16,777,216 bytes. A name that begins with
    /// `/` is looked for in the first store alone. Any other is looked for in the folder of the includer where its form is
    /// `Quote`, and then in the stores after the first, in order. The first answer other than `Absent` ends the search. On
    /// any answer but `Found` `into` is unchanged. `Failed` is answered only where the count of one of the stores rose.
    fn find(&mut self, includer: &FileId, form: Form, name: &[u8], into: &mut Vec<u8>) -> Located
        requires { includer.now.store < length (stores self.old) }
        ensures answer { Finds (stores self.old) (candidates (length (stores self.old)) includer.now form name.now) result into.old.items into.new.items }
        ensures store { OnFound result (λ id. id.store < length (stores self.old)) }
        ensures bytes { OnFound result (λ id. AreFilesOfBytes (told_by (stores self.old) id.store)) }
        ensures same { stores self.new ≡ stores self.old }
        ensures places { folders self.new ≡ folders self.old }
        ensures cause { HasCause (count self.old) (count self.new) (result ≡ Located.Failed) }
        ensures store_cause { HasStoreCause (counts self.old) (counts self.new) (result ≡ Located.Failed) };

    /// Looks for a file in the first store alone, under the same limit.
    fn primary(&mut self, name: &[u8], into: &mut Vec<u8>) -> Located
        requires { 0 < length (stores self.old) }
        ensures answer { Finds (stores self.old) (record { store = 0; name = name.now } ∷ []) result into.old.items into.new.items }
        ensures store { OnFound result (λ id. id.store < length (stores self.old)) }
        ensures bytes { OnFound result (λ id. AreFilesOfBytes (told_by (stores self.old) id.store)) }
        ensures same { stores self.new ≡ stores self.old }
        ensures places { folders self.new ≡ folders self.old }
        ensures cause { HasCause (count self.old) (count self.new) (result ≡ Located.Failed) }
        ensures store_cause { HasStoreCause (counts self.old) (counts self.new) (result ≡ Located.Failed) };

    /// The path of a file: its name where the label of its store is empty, else the label, `/` and the name.
    fn path_of(&self, id: &FileId) -> Result<Bytes, NoMemory>
        requires { id.now.store < length (stores self.now) }
        ensures { IfOk result (λ path. path ≡ path_text (label_of (stores self.now) id.now.store) id.now.name) };

    /// Drops every store. The count of faults stays, as the retired count.
    fn clear(&mut self)
        ensures stores { stores self.new ≡ [] }
        ensures count { count self.new ≡ count self.old }
        ensures retired { counts self.new ≡ record { retired = count self.old; stores = [] } };

    /// How often a call has failed, up to `u64::MAX`.
    fn faults(&self) -> u64
        ensures { result ≡ count self.now };

    /// The count is that of the stores and the retired one together.
    ghost counted: { (path : Self) → count path ≡ total (counts path) };
}
