ghost use Rattle.std.specs.Prelude.{◌≡◌, ◌≤◌, [], ◌∷◌, ◌++◌, length, position, IfOk};
ghost use Rattle.pp_tokens.specs.Kinds.{same};
ghost use Rattle.pp_unit.specs.Seen.{number_or, with_path};

use mac_base::{Bytes, NoMemory, Paths};
use std::alloc::Global;
use std::collections::BTreeMap;
use std::marker::Model;

/// A list of paths, which are found by their bytes.
#[derive(Drop)]
pub struct PathNumbers {
    alloc: Global,
    paths: Paths,
    /// Where each path comes first.
    numbers: BTreeMap<Vec<u8>, usize>,
}

impl Model for PathNumbers {
    ghost use Rattle.std.specs.Prelude.{ℕ, List, map};
    ghost use Rattle.std.specs.FinMap as finite;
    ghost use Rattle.pp_unit.specs.Recorded.{AreNumbered};

    ghost Value = { List (List ℕ) };

    ghost view = { λ p. p.paths };

    ghost invariant = { λ p. AreNumbered (finite.from_entries (map (λ e. (e.0.items, e.1)) p.numbers.entries)) p.paths };
}

impl PathNumbers {
    /// No paths. Takes no memory.
    pub fn new(alloc: Global) -> PathNumbers
        ensures { result ≡ [] }
    {
        PathNumbers {
            alloc,
            paths: Paths::new(alloc),
            numbers: BTreeMap::new(alloc),
        }
    }

    /// Where a path comes first.
    pub fn place_of(&self, path: &[u8]) -> Option<usize>
        ensures { result ≡ position (same path.now) self.now }
    {
        self.numbers.get(path).copied()
    }

    /// The number of a path, which is the next where it is not there.
    pub fn number_of(&self, path: &[u8]) -> usize
        ensures number { result ≡ number_or (length self.now) (position (same path.now) self.now) }
        ensures within { result ≤ length self.now }
    {
        match self.place_of(path) {
            Some(number) => number,
            None => self.paths.len(),
        }
    }

    /// The paths with this one, which may be there already.
    pub fn with_path(self, path: &[u8]) -> Result<PathNumbers, NoMemory>
        ensures { IfOk result (λ paths. paths ≡ with_path self path.now (position (same path.now) self)) }
    {
        match self.place_of(path) {
            Some(_) => Ok(self),
            None => self.with_new(path),
        }
    }

    /// The paths with this one after them, which is not there yet.
    fn with_new(self, path: &[u8]) -> Result<PathNumbers, NoMemory>
        requires { position (same path.now) self ≡ None }
        ensures { IfOk result (λ paths. paths ≡ self ++ path.now ∷ []) }
    {
        let PathNumbers {
            alloc,
            mut paths,
            mut numbers,
        } = self;
        numbers.insert(Vec::from_slice(alloc, path)?, paths.len())?;
        paths.push(Bytes::from_slice(alloc, path)?)?;
        Ok(PathNumbers {
            alloc,
            paths,
            numbers,
        })
    }

    /// The same paths, without taking memory.
    pub fn into_paths(self) -> Paths
        ensures { result ≡ self }
    {
        let PathNumbers { paths, .. } = self;
        paths
    }
}
