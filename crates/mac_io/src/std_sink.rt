ghost use Rattle.std.specs.Prelude.{◌≡◌, [], None, IfOk};
ghost use Rattle.std.specs.Io.KnownBytes.{Appends, Keeps};
ghost use Rattle.mac_io.specs.Causes.{HasCause};
ghost use Rattle.mac_io.specs.Calls.{Writes};
ghost use Rattle.mac_io.specs.System.{Buffered, taken};

use crate::sink::{Sink, Wrote};
use mac_base::NoMemory;
use std::alloc::Global;
use std::io::{BufWriter, Write};
use std::marker::Model;

/// A writer as a sink, with a buffer. Contracts see what the writer has, where that is known, what is in the buffer, and how
/// often a call has failed. As a sink it tells no text.
#[derive(Drop)]
pub struct StdSink<W: Write + Drop> {
    inner: BufWriter<W>,
    faults: u64,
}

impl<W: Write + Drop> Model for StdSink<W> {
    ghost use Rattle.std.specs.Io.Buffered.{writer_buffer, writer_inner};
    ghost use Rattle.mac_io.specs.System.{Buffered};

    ghost Value = { Buffered };

    ghost view = { λ sink. record { written = W.contents (writer_inner sink.inner); waiting = writer_buffer sink.inner; faults = sink.faults } };
}

impl<W: Write + Drop> StdSink<W> {
    /// Takes memory for the buffer, once.
    pub fn new(alloc: Global, inner: W) -> Result<StdSink<W>, NoMemory>
        ensures { IfOk result (λ sink. sink ≡ record { written = W.contents inner; waiting = []; faults = 0 }) }
    {
        match BufWriter::new(alloc, inner) {
            Ok(inner) => Ok(StdSink { inner, faults: 0 }),
            Err(_) => Err(NoMemory),
        }
    }

    /// Hands on what is still in the buffer. To be called last, since text that stays there is lost without a word.
    pub fn flush(&mut self) -> Wrote
        ensures cause { HasCause self.old.faults self.new.faults (result ≡ Wrote.Failed) }
        ensures kept { Keeps (taken self.old) (taken self.new) }
        ensures handed_on { result ≡ Wrote.Done → self.new.waiting ≡ [] }
    {
        match self.inner.flush() {
            Ok(()) => Wrote::Done,
            Err(_) => {
                self.faults = self.faults.saturating_add(1);
                Wrote::Failed
            }
        }
    }
}

impl<W: Write + Drop> Sink for StdSink<W> {
    ghost text = { λ _. None };

    ghost count = { λ sink. sink.faults };

    fn write(&mut self, piece: &[u8]) -> Wrote
        ensures answer { Writes None None piece.now result }
        ensures cause { HasCause self.old.faults self.new.faults (result ≡ Wrote.Failed) }
        ensures whole { result ≡ Wrote.Done → Appends (taken self.old) (taken self.new) piece.now }
    {
        match self.inner.write_all(piece) {
            Ok(()) => Wrote::Done,
            Err(_) => {
                self.faults = self.faults.saturating_add(1);
                Wrote::Failed
            }
        }
    }

    fn faults(&self) -> u64 {
        self.faults
    }
}
