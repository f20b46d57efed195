ghost use Rattle.std.specs.Prelude.{◌≡◌, [], Some, if◌then◌else◌, IfOk};
ghost use Rattle.mac_io.specs.Causes.{HasCause};
ghost use Rattle.mac_io.specs.Calls.{Writes};
ghost use Rattle.mac_io.specs.InMemory.{write_fails, after_write};

use crate::failures::Failures;
use crate::sink::{Sink, Wrote};
use mac_base::NoMemory;
use std::alloc::Global;
use std::marker::Model;

/// Text in memory. Its room is made when it is made, so what fits is written.
#[derive(Drop)]
pub struct VecSink {
    text: Vec<u8>,
    room: usize,
    failures: Failures,
}

impl Model for VecSink {
    ghost use Rattle.std.specs.Prelude.{◌≤◌, vec_len, vec_capacity};
    ghost use Rattle.mac_io.specs.InMemory.{MemorySink};

    ghost Value = { MemorySink };

    ghost view = { λ s. record { text = s.text.items; room = s.room; log = s.failures } };

    ghost invariant = { λ s. (vec_len s.text ≤ s.room) × (s.room ≤ vec_capacity s.text) };
}

impl VecSink {
    /// An empty sink that takes `room` bytes, and whose calls of these numbers, counted from 1, fail.
    pub fn new(alloc: Global, room: usize, fails: Vec<u64>) -> Result<VecSink, NoMemory>
        ensures { IfOk result (λ sink. sink ≡ record { text = []; room = room; log = record { failing = fails.items; calls = 0; faults = 0 } }) }
    {
        Ok(VecSink {
            text: Vec::with_capacity(alloc, room)?,
            room,
            failures: Failures::new(fails),
        })
    }

    /// The text so far.
    pub fn text(&self) -> &[u8]
        ensures { result.now ≡ self.now.text }
    {
        self.text.as_slice()
    }
}

impl Sink for VecSink {
    ghost text = { λ sink. Some sink.text };

    ghost count = { λ sink. sink.log.faults };

    fn write(&mut self, piece: &[u8]) -> Wrote
        ensures answer { Writes (Some self.old.text) (Some self.new.text) piece.now result }
        ensures cause { HasCause self.old.log.faults self.new.log.faults (result ≡ Wrote.Failed) }
        ensures exact { result ≡ (if write_fails self.old piece.now then Wrote.Failed else Wrote.Done) }
        ensures after { self.new ≡ after_write self.old piece.now }
    {
        let fails = self.failures.is_due() || self.room - self.text.len() < piece.len();
        self.failures.count(fails);
        if fails {
            return Wrote::Failed;
        }
        self.text.extend_from_slice(piece).unwrap();
        Wrote::Done
    }

    fn faults(&self) -> u64 {
        self.failures.faults()
    }
}
