ghost use Rattle.std.specs.Prelude.{◌≡◌, ◌++◌, ◌∷◌, [], IfOk};
ghost use Rattle.std.specs.List.{list_any};
ghost use Rattle.pp_tokens.specs.Kinds.{same};

use mac_base::{Bytes, NoMemory, Paths};
use std::alloc::Global;
use std::collections::BTreeSet;
use std::marker::Model;

/// The names of parameters in order, which are found by their bytes however many there are.
#[derive(Drop)]
pub struct Params {
    names: Paths,
    known: BTreeSet<Vec<u8>>,
}

impl Model for Params {
    ghost use Rattle.std.specs.Prelude.{ℕ, List, map};
    ghost use Rattle.macro_table.specs.Params.{AreKnown};

    ghost Value = { List (List ℕ) };

    ghost view = { λ p. p.names };

    ghost invariant = { λ p. AreKnown (map (λ name. name.items) p.known.keys) p.names };
}

impl Params {
    /// No names. Takes no memory.
    pub fn new(alloc: Global) -> Params
        ensures { result ≡ [] }
    {
        Params {
            names: Paths::new(alloc),
            known: BTreeSet::new(alloc),
        }
    }

    /// Whether this is one of the names.
    pub fn has(&self, name: &[u8]) -> bool
        ensures { result ≡ list_any (same name.now) self.now }
    {
        self.known.contains(name)
    }

    /// The names, and this one after them.
    pub fn with(self, alloc: Global, name: &[u8]) -> Result<Params, NoMemory>
        ensures { IfOk result (λ names. names ≡ self ++ name.now ∷ []) }
    {
        let Params {
            mut names,
            mut known,
        } = self;
        names.push(Bytes::from_slice(alloc, name)?)?;
        known.insert(Vec::from_slice(alloc, name)?)?;
        Ok(Params { names, known })
    }

    /// The names in order.
    pub fn into_paths(self) -> Paths
        ensures { result ≡ self }
    {
        let Params { names, known: _ } = self;
        names
    }
}
