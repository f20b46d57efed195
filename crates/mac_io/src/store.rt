ghost use Rattle.std.specs.Prelude.{◌≡◌, ℕ, List, Option, None};
ghost use Rattle.mac_io.specs.Causes.{HasCause};
ghost use Rattle.mac_io.specs.Files.{Files, AreFilesOfBytes};
ghost use Rattle.mac_io.specs.Calls.{FetchesFrom};

use crate::shelf::Fetched;

/// Files by name, which are only read. The search path holds boxes of it.
pub trait HeaderStore: Drop {
    /// The files, where the store tells them.
    ghost files: { Self → Option Files };

    /// How often a call has failed.
    ghost count: { Self → ℕ };

    /// The path of the folder that the store is over, empty for the working folder; none where it is over no folder.
    ghost folder: { Self → Option (List ℕ) } = { λ _. None };

    /// Appends the file of this name, where it has at most `limit` bytes. On any other answer `into` is unchanged.
    fn fetch(&mut self, name: &[u8], limit: usize, into: &mut Vec<u8>) -> Fetched
        ensures answer { FetchesFrom (files self.old) name.now limit result into.old.items into.new.items }
        ensures same { files self.new ≡ files self.old }
        ensures bytes { AreFilesOfBytes (files self.old) }
        ensures place { folder self.new ≡ folder self.old }
        ensures cause { HasCause (count self.old) (count self.new) (result ≡ Fetched.Failed) };

    /// How often a call has failed, up to `u64::MAX`.
    fn faults(&self) -> u64
        ensures { result ≡ count self.now };
}
