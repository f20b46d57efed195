ghost use Rattle.std.specs.Prelude.{◌≡◌, ℕ, List, Option};
ghost use Rattle.mac_io.specs.Causes.{HasCause};
ghost use Rattle.mac_io.specs.Calls.{Writes};

/// The answer to writing a piece of text.
#[derive(Clone, Copy, Debug, PartialEq, Eq)]
pub enum Wrote {
    /// The piece was appended.
    Done,
    /// The sink has a fault, which it has counted; a prefix of the piece was appended.
    Failed,
}

/// Takes text.
pub trait Sink {
    /// The text so far, where the sink tells it.
    ghost text: { Self → Option (List ℕ) };

    /// How often a call has failed.
    ghost count: { Self → ℕ };

    /// Appends a piece of text; a prefix of it where the call fails.
    fn write(&mut self, piece: &[u8]) -> Wrote
        ensures answer { Writes (text self.old) (text self.new) piece.now result }
        ensures cause { HasCause (count self.old) (count self.new) (result ≡ Wrote.Failed) };

    /// How often a call has failed, up to `u64::MAX`.
    fn faults(&self) -> u64
        ensures { result ≡ count self.now };
}
