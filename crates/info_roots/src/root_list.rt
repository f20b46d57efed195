ghost use Rattle.std.specs.Prelude.{◌≡◌, [], ◌∷◌, ◌++◌, length, OnOk, OnErr};

use crate::root::Root;
use mac_base::NoMemory;
use std::alloc::Global;
use std::marker::Model;

/// A list of roots.
#[derive(Debug, Drop)]
pub struct RootList {
    items: Vec<Root>,
}

impl Model for RootList {
    ghost use Rattle.std.specs.Prelude.{List};
    ghost use Rattle.info_roots.specs.declared.root.Root.{Root};

    ghost Value = { List Root };

    ghost view = { λ r. r.items.items };
}

impl RootList {
    /// No roots. Takes no memory.
    pub fn new(alloc: Global) -> RootList
        ensures { result ≡ [] }
    {
        RootList {
            items: Vec::new(alloc),
        }
    }

    /// The same roots, without taking memory.
    pub fn from_vec(items: Vec<Root>) -> RootList
        ensures { result ≡ items.items }
    {
        RootList { items }
    }

    /// The same roots, without taking memory.
    pub fn into_vec(self) -> Vec<Root>
        ensures { result.items ≡ self }
    {
        let RootList { items } = self;
        items
    }

    /// Puts a root at the end.
    pub fn push(&mut self, x: Root) -> Result<(), NoMemory>
        ensures ok { OnOk result (self.new ≡ self.old ++ x ∷ []) }
        ensures err { OnErr result (self.new ≡ self.old) }
    {
        self.items.push(x)?;
        Ok(())
    }

    /// How many roots there are.
    pub fn len(&self) -> usize
        ensures { result ≡ length self.now }
    {
        self.items.len()
    }

    /// The roots in order.
    pub fn as_slice(&self) -> &[Root]
        ensures { result.now ≡ self.now }
    {
        self.items.as_slice()
    }
}
