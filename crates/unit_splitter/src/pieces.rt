ghost use Rattle.std.specs.Prelude.{◌≡◌, [], ◌∷◌, ◌++◌, length, OnOk, OnErr};

use crate::root::RootEntries;
use mac_base::{EventList, NoMemory};
use std::alloc::Global;
use std::marker::Model;

/// A macro unit that other macro units import (DWARF 5, 6.3.2.3).
#[derive(Debug, Drop)]
pub struct Piece {
    pub entries: EventList,
}

/// A list of pieces.
#[derive(Debug, Drop)]
pub struct Pieces {
    items: Vec<Piece>,
}

impl Model for Pieces {
    ghost use Rattle.std.specs.Prelude.{List};
    ghost use Rattle.unit_splitter.specs.declared.pieces.Piece.{Piece};

    ghost Value = { List Piece };

    ghost view = { λ p. p.items.items };
}

impl Pieces {
    /// No pieces. Takes no memory.
    pub fn new(alloc: Global) -> Pieces
        ensures { result ≡ [] }
    {
        Pieces {
            items: Vec::new(alloc),
        }
    }

    /// The same pieces, without taking memory.
    pub fn from_vec(items: Vec<Piece>) -> Pieces
        ensures { result ≡ items.items }
    {
        Pieces { items }
    }

    /// The same pieces, without taking memory.
    pub fn into_vec(self) -> Vec<Piece>
        ensures { result.items ≡ self }
    {
        let Pieces { items } = self;
        items
    }

    /// Puts a piece at the end.
    pub fn push(&mut self, x: Piece) -> Result<(), NoMemory>
        ensures ok { OnOk result (self.new ≡ self.old ++ x ∷ []) }
        ensures err { OnErr result (self.new ≡ self.old) }
    {
        self.items.push(x)?;
        Ok(())
    }

    /// How many pieces there are.
    pub fn len(&self) -> usize
        ensures { result ≡ length self.now }
    {
        self.items.len()
    }

    /// The pieces in order.
    pub fn as_slice(&self) -> &[Piece]
        ensures { result.now ≡ self.now }
    {
        self.items.as_slice()
    }
}

/// The macro information of a translation unit as a root that imports pieces.
#[derive(Debug, Drop)]
pub struct Split {
    pub root: RootEntries,
    pub pieces: Pieces,
}
