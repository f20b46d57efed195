ghost use Rattle.std.specs.Prelude.{◌≡◌, ◌+◌, ◌≤◌, ◌<◌, [], ◌∷◌, ◌++◌, length, not, false, true, IfOk, OnOk, OnErr};
ghost use Rattle.string_sections.specs.Pool.{has_string, add_string, pool_bytes, offset_in, pool_limit, is_too_large_with};
ghost use Rattle.string_sections.specs.PoolTable.{place_in};

use mac_base::{Bytes, NoMemory, push_string};
use std::alloc::Global;
use std::collections::BTreeMap;
use std::marker::Model;
use thiserror::Error;

/// The most bytes that a pool has.
const LIMIT: usize = 1_073_741_824;

/// Why a string can't be added to a pool.
#[derive(Debug, Drop, Error)]
pub enum PoolFault {
    /// With the string the pool would have more than 1,073,741,824 bytes.
    #[error("the strings are too large")]
    TooLarge,
    /// Memory ran out.
    #[error("out of memory")]
    NoMemory,
}

/// The strings of a string section that is written, each once, in the order in which they were added first (DWARF 5,
/// 7.26). They are found in an ordered table, since whoever writes the strings could make them collide in a hash table.
/// A string with a NUL in it is kept as it is; a reader of the section finds the part before the NUL.
#[derive(Drop)]
pub struct StrPool {
    /// The strings, each with its NUL.
    bytes: Vec<u8>,
    /// How long the strings are, in order.
    lengths: Vec<u32>,
    /// The offset of each string.
    offsets: BTreeMap<Vec<u8>, u32>,
}

impl Model for StrPool {
    ghost use Rattle.std.specs.Prelude.{ℕ, List, map};
    ghost use Rattle.std.specs.FinMap as finite;
    ghost use Rattle.string_sections.specs.PoolTable.{strings_in, IsPool};

    ghost Value = { List (List ℕ) };

    ghost view = { λ p. strings_in p.lengths.items p.bytes.items };

    ghost invariant = { λ p. IsPool p.bytes.items p.lengths.items (finite.from_entries (map (λ e. (e.0.items, e.1)) p.offsets.entries)) };
}

impl StrPool {
    /// A pool without strings. Takes no memory.
    pub fn new(alloc: Global) -> StrPool
        ensures { result ≡ [] }
    {
        StrPool {
            bytes: Vec::new(alloc),
            lengths: Vec::new(alloc),
            offsets: BTreeMap::new(alloc),
        }
    }

    /// Adds a string, and says how many bytes of the pool are before it: a string that is there
    /// already keeps its offset. After a fault the pool is as before. `TooLarge` exactly where the pool would have more
    /// than 1,073,741,824 bytes.
    pub fn add(&mut self, s: &[u8]) -> Result<u32, PoolFault>
        ensures offset { IfOk result (λ offset. offset ≡ offset_in self.old s.now) }
        ensures ok { OnOk result (self.new ≡ add_string self.old s.now) }
        ensures err { OnErr result (self.new ≡ self.old) }
        ensures fits { OnOk result (is_too_large_with self.old s.now ≡ false) }
        ensures too_large { is_too_large_with self.old s.now ≡ true → result ≡ Err PoolFault.TooLarge }
        ensures cause { result ≡ Err PoolFault.TooLarge → is_too_large_with self.old s.now ≡ true }
    {
        if let Some(offset) = self.offset_of(s) {
            return Ok(offset);
        }
        if !self.has_room(s) {
            return Err(PoolFault::TooLarge);
        }
        match self.push(s) {
            Ok(offset) => Ok(offset),
            Err(NoMemory) => Err(PoolFault::NoMemory),
        }
    }

    /// The offset of a string that was added.
    fn offset_of(&self, s: &[u8]) -> Option<u32>
        ensures place { result ≡ place_in self.now s.now }
        ensures small { length (pool_bytes self.now) ≤ pool_limit }
    {
        self.offsets.get(s).copied()
    }

    /// Whether the pool keeps its limit with a string that it lacks.
    fn has_room(&self, s: &[u8]) -> bool
        requires { has_string self.now s.now ≡ false }
        ensures { result ≡ not (is_too_large_with self.now s.now) }
    {
        self.bytes.len() + s.len() < LIMIT
    }

    /// Puts a string that the pool lacks at its end, and says where. After `NoMemory` the pool is as before.
    fn push(&mut self, s: &[u8]) -> Result<u32, NoMemory>
        requires absent { has_string self.old s.now ≡ false }
        requires room { length (pool_bytes self.old) + length s.now < pool_limit }
        ensures offset { IfOk result (λ offset. offset ≡ length (pool_bytes self.old)) }
        ensures ok { OnOk result (self.new ≡ self.old ++ s.now ∷ []) }
        ensures err { OnErr result (self.new ≡ self.old) }
    {
        let end = self.bytes.len();
        let offset = end as u32;
        let key = Vec::from_slice(*self.bytes.allocator(), s)?;
        push_string(&mut self.bytes, s)?;
        match self.lengths.push(s.len() as u32) {
            Ok(()) => {}
            Err(_) => {
                self.bytes.truncate(end);
                return Err(NoMemory);
            }
        }
        match self.offsets.insert(key, offset) {
            Ok(_) => Ok(offset),
            Err(_) => {
                self.bytes.truncate(end);
                let _ = self.lengths.pop();
                Err(NoMemory)
            }
        }
    }

    /// How many different strings were added.
    pub fn count(&self) -> u64
        ensures { result ≡ length self.now }
    {
        self.lengths.len() as u64
    }

    /// The strings in order, each with its NUL.
    pub fn bytes(&self) -> Result<Bytes, NoMemory>
        ensures { IfOk result (λ bytes. bytes ≡ pool_bytes self.now) }
    {
        Bytes::from_slice(*self.bytes.allocator(), self.bytes.as_slice())
    }

    /// The same, without taking memory.
    pub fn into_bytes(self) -> Bytes
        ensures { result ≡ pool_bytes self }
    {
        let StrPool { bytes, .. } = self;
        Bytes::from_vec(bytes)
    }
}
