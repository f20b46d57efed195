// The pieces that are known after some parts, and where they are found.
ghost use Rattle.std.specs.Prelude.{◌≡◌, ◌≤◌, ◌<◌, [], ◌∷◌, ◌++◌, length, position, List, ℕ, IfOk, OnOk, IsTrue, None};
ghost use Rattle.unit_splitter.specs.Growing.{digest_of, grown, is_same_at, number_noted};
ghost use Rattle.std.specs.Ordering.{nat_cmp};
ghost use Rattle.std.specs.Cmp.Lexicographic.{slice_cmp};
ghost use Rattle.std.specs.BTreeMap.{get};
ghost use Rattle.unit_splitter.specs.Split.{is_run, number_in, same_part};

use crate::comparison::{copy_part, same_part};
use crate::digest::digest_of;
use crate::pieces::{Piece, Pieces};
use mac_base::{Event, EventList, NoMemory};
use std::alloc::Global;
use std::collections::BTreeMap;
use std::marker::Model;

/// The most pieces of a translation unit.
const PIECE_LIMIT: usize = 16_384;

/// Pieces in order of first use. Where a digest is that of several pieces, which no one has found of SHA-256, they are
/// told apart by their entries.
#[derive(Drop)]
pub struct KnownPieces {
    alloc: Global,
    pieces: Pieces,
    /// Where each digest comes first.
    numbers: BTreeMap<[u8; 32], u32>,
}

impl Model for KnownPieces {
    ghost use Rattle.std.specs.Prelude.{List};
    ghost use Rattle.unit_splitter.specs.declared.pieces.Piece.{Piece};
    ghost use Rattle.unit_splitter.specs.Growing.{AreKnown};

    ghost Value = { List Piece };

    ghost view = { λ k. k.pieces };

    ghost invariant = { λ k. AreKnown k.numbers k.pieces };
}

impl KnownPieces {
    /// No pieces. Takes no memory.
    pub fn new(alloc: Global) -> KnownPieces
        ensures { result ≡ [] }
    {
        KnownPieces {
            alloc,
            pieces: Pieces::new(alloc),
            numbers: BTreeMap::new(alloc),
        }
    }

    /// The pieces after one more part, which becomes a piece where it is a new run and there is room, and the number of
    /// the piece that the part is.
    pub fn with_part(self, part: &[Event]) -> Result<(KnownPieces, Option<u32>), NoMemory>
        ensures pieces { IfOk result (λ known. known.0 ≡ grown self part.now) }
        ensures number { IfOk result (λ known. known.1 ≡ number_in (grown self part.now) part.now) }
    {
        if part.len() < 2 {
            return Ok((self, None));
        }
        let digest = digest_of(self.alloc, part)?;
        match self.number_of(part, &digest) {
            Some(number) => Ok((self, Some(number))),
            None => self.with_new(part, digest),
        }
    }

    /// The number of the piece with these entries, whose digest is given.
    fn number_of(&self, part: &[Event], digest: &[u8; 32]) -> Option<u32>
        requires { digest.now ≡ digest_of part.now }
        ensures { result ≡ position (λ piece. same_part part.now piece.entries) self.now }
    {
        let number = self.numbers.get(digest).copied()?;
        if self.is_at(part, number) {
            Some(number)
        } else {
            self.search(part)
        }
    }

    /// Whether the piece of this number has these entries.
    fn is_at(&self, part: &[Event], number: u32) -> bool
        ensures { result ≡ is_same_at part.now self.now number }
    {
        match self.pieces.as_slice().get(number as usize) {
            Some(piece) => same_part(part, piece.entries.as_slice()),
            None => false,
        }
    }

    /// The number of the piece with these entries, by a comparison with all.
    fn search(&self, part: &[Event]) -> Option<u32>
        ensures { result ≡ position (λ piece. same_part part.now piece.entries) self.now }
    {
        let number = place_of(self.pieces.as_slice(), part)?;
        Some(number as u32)
    }

    /// The pieces with this run, which is none of them, where there is room.
    fn with_new(
        self,
        part: &[Event],
        digest: [u8; 32],
    ) -> Result<(KnownPieces, Option<u32>), NoMemory>
        requires run { IsTrue (is_run part.now) }
        requires digest { digest ≡ digest_of part.now }
        requires new { position (λ piece. same_part part.now piece.entries) self ≡ None }
        ensures pieces { IfOk result (λ known. known.0 ≡ grown self part.now) }
        ensures number { IfOk result (λ known. known.1 ≡ number_in (grown self part.now) part.now) }
    {
        let number = self.pieces.len();
        if number >= PIECE_LIMIT {
            return Ok((self, None));
        }
        let known = self.with_piece(part, digest)?;
        Ok((known, Some(number as u32)))
    }

    /// The pieces with one more, whose digest is given.
    fn with_piece(self, part: &[Event], digest: [u8; 32]) -> Result<KnownPieces, NoMemory>
        requires digest { digest ≡ digest_of part.now }
        requires room { length self < 16384 }
        ensures { IfOk result (λ known. known ≡ self ++ record { entries = part.now } ∷ []) }
    {
        let KnownPieces {
            alloc,
            mut pieces,
            mut numbers,
        } = self;
        let entries = EventList::from_vec(copy_part(alloc, part)?);
        note_digest(&mut numbers, digest, pieces.len() as u32)?;
        pieces.push(Piece { entries })?;
        Ok(KnownPieces {
            alloc,
            pieces,
            numbers,
        })
    }

    /// The pieces, without taking memory.
    pub fn into_pieces(self) -> Pieces
        ensures { result ≡ self }
    {
        let KnownPieces { pieces, .. } = self;
        pieces
    }
}

/// Where the piece with these entries comes first.
fn place_of(pieces: &[Piece], part: &[Event]) -> Option<usize>
    ensures { result ≡ position (λ piece. same_part part.now piece.entries) pieces.now }
{
    pieces
        .iter()
        .position(|piece| same_part(part, piece.entries.as_slice()))
}

/// Adds the number of a digest where there is none.
fn note_digest(
    numbers: &mut BTreeMap<[u8; 32], u32>,
    digest: [u8; 32],
    number: u32,
) -> Result<(), NoMemory>
    ensures { OnOk result ((other : List ℕ) → get (slice_cmp nat_cmp) numbers.new other ≡ number_noted (get (slice_cmp nat_cmp) numbers.old other) digest number other) }
{
    if numbers.contains_key(&digest) {
        return Ok(());
    }
    numbers.insert(digest, number)?;
    Ok(())
}
