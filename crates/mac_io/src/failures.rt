ghost use Rattle.std.specs.Prelude.{◌≡◌, ◌≤◌};
ghost use Rattle.mac_io.specs.InMemory.{is_due, after_call};

use std::marker::Model;

/// Which calls of an object in memory are to fail, by number from 1 on, and how many were made and have failed.
#[derive(Drop)]
pub struct Failures {
    failing: Vec<u64>,
    calls: u64,
    faults: u64,
}

impl Model for Failures {
    ghost use Rattle.mac_io.specs.InMemory.{CallLog};

    ghost Value = { CallLog };

    ghost view = { λ f. record { failing = f.failing.items; calls = f.calls; faults = f.faults } };
}

impl Failures {
    /// A log of calls, none so far, of which those with these numbers, counted from 1 on, are to fail.
    pub fn new(failing: Vec<u64>) -> Failures
        ensures { result ≡ record { failing = failing.items; calls = 0; faults = 0 } }
    {
        Failures {
            failing,
            calls: 0,
            faults: 0,
        }
    }

    /// Whether the next call is to fail.
    pub fn is_due(&self) -> bool
        ensures { result ≡ is_due self.now }
    {
        self.failing.contains(&self.calls.saturating_add(1))
    }

    /// Counts a call, which fails or not.
    pub fn count(&mut self, fails: bool)
        ensures after { self.new ≡ after_call self.old fails }
        ensures later { self.old.faults ≤ self.new.faults }
    {
        self.calls = self.calls.saturating_add(1);
        if fails {
            self.faults = self.faults.saturating_add(1);
        }
    }

    /// How many calls failed so far.
    pub fn faults(&self) -> u64
        ensures { result ≡ self.now.faults }
    {
        self.faults
    }
}
