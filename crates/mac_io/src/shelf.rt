ghost use Rattle.std.specs.Prelude.{◌≡◌, ℕ, Option};
ghost use Rattle.mac_io.specs.Causes.{HasCause};
ghost use Rattle.mac_io.specs.Files.{Files, AreFilesOfBytes};
ghost use Rattle.mac_io.specs.Calls.{FetchesFrom, Puts};

/// The answer to a look-up.
#[derive(Clone, Copy, Debug, PartialEq, Eq)]
pub enum Fetched {
    /// The file was appended.
    Found,
    /// No file has this name.
    Absent,
    /// The file has more bytes than the limit.
    TooLong,
    /// The store has a fault, which it has counted.
    Failed,
    /// Memory ran out.
    NoMemory,
}

/// The answer to storing a file.
#[derive(Clone, Copy, Debug, PartialEq, Eq)]
pub enum Put {
    /// The file has these bytes.
    Done,
    /// The store has a fault, which it has counted; the content of this file is unknown.
    Failed,
    /// Memory ran out, and nothing has changed.
    NoMemory,
}

/// Files by name, which can be read and stored.
pub trait Shelf {
    /// The files, where the shelf tells them.
    ghost files: { Self → Option Files };

    /// How often a call has failed.
    ghost count: { Self → ℕ };

    /// Appends the file of this name, where it has at most `limit` bytes. On any other answer `into` is unchanged.
    fn get(&mut self, name: &[u8], limit: usize, into: &mut Vec<u8>) -> Fetched
        ensures answer { FetchesFrom (files self.old) name.now limit result into.old.items into.new.items }
        ensures same { files self.new ≡ files self.old }
        ensures bytes { AreFilesOfBytes (files self.old) }
        ensures cause { HasCause (count self.old) (count self.new) (result ≡ Fetched.Failed) };

    /// Makes these bytes the file of this name. All other files stay.
    fn put(&mut self, name: &[u8], bytes: &[u8]) -> Put
        ensures answer { Puts (files self.old) (files self.new) name.now bytes.now result }
        ensures cause { HasCause (count self.old) (count self.new) (result ≡ Put.Failed) };

    /// How often a call has failed, up to `u64::MAX`.
    fn faults(&self) -> u64
        ensures { result ≡ count self.now };
}
