ghost use Rattle.std.specs.Prelude.{◌≡◌, [], ◌∷◌, ◌++◌, length, OnOk, OnErr};

use mac_base::NoMemory;
use std::alloc::Global;
use std::marker::Model;

/// A list of line numbers.
#[derive(Debug, Drop)]
pub struct LineNumbers {
    items: Vec<u32>,
}

impl Model for LineNumbers {
    ghost use Rattle.std.specs.Prelude.{ℕ, List};

    ghost Value = { List ℕ };

    ghost view = { λ l. l.items.items };
}

impl LineNumbers {
    /// No numbers. Takes no memory.
    pub fn new(alloc: Global) -> LineNumbers
        ensures { result ≡ [] }
    {
        LineNumbers {
            items: Vec::new(alloc),
        }
    }

    /// The same numbers, without taking memory.
    pub fn from_vec(items: Vec<u32>) -> LineNumbers
        ensures { result ≡ items.items }
    {
        LineNumbers { items }
    }

    /// Puts a number at the end.
    pub fn push(&mut self, x: u32) -> Result<(), NoMemory>
        ensures ok { OnOk result (self.new ≡ self.old ++ x ∷ []) }
        ensures err { OnErr result (self.new ≡ self.old) }
    {
        self.items.push(x)?;
        Ok(())
    }

    /// How many numbers there are.
    pub fn len(&self) -> usize
        ensures { result ≡ length self.now }
    {
        self.items.len()
    }

    /// The numbers in order.
    pub fn as_slice(&self) -> &[u32]
        ensures { result.now ≡ self.now }
    {
        self.items.as_slice()
    }
}
