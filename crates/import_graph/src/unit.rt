ghost use Rattle.std.specs.Prelude.{◌≡◌, ℕ, List, length, [], ◌∷◌, ◌++◌, OnOk, IfOk, IfErr, Ok, ◌==◌, if◌then◌else◌};
ghost use Rattle.mac_base.specs.SectionBytes.{SectionBytes};
ghost use Rattle.macro_opcodes.specs.Entry.{entry_of};
ghost use Rattle.import_graph.specs.declared.node.Link.TheVariants.{Own, Import};
ghost use Rattle.import_graph.specs.Faults.{IsFaultOf, entry_part, fault_at};
ghost use Rattle.import_graph.specs.Meaning.{Lent};
ghost use Rattle.import_graph.specs.Numbers.{IsLookup, Fits, named_item};
ghost use Rattle.import_graph.specs.Walk.{files_behind};
ghost use Rattle.import_graph.specs.Turns.{together, IsSameUnit, MovesOn, EntersInside, EntrySays, TurnSays};

use crate::fault::FileFault;
use crate::meaning::{FileRange, Lookup, Meaning};
use crate::node::{Link, NodeId};
use crate::spliced::Spliced;
use mac_base::{Cursor, NoMemory, Steps};
use macro_opcodes::{RawEntry, read_entry};
use std::sync::ledger::Ledger;
use unit_header::{Header, UnitFault, UnitKind};

/// How many entries a root may stand for.
pub const MOST_ENTRIES: u64 = 16_777_216;

/// A unit that is being walked.
#[derive(Drop)]
pub struct OpenUnit<'a> {
    /// Where it begins.
    pub at: u64,
    pub header: Header<'a>,
    pub files: Option<FileRange>,
    /// Where its next entry stands.
    pub cursor: Cursor<'a>,
    /// How many files that began in it are open.
    pub open_files: u64,
    /// What was read of it.
    pub links: Vec<Link<'a>>,
    pub count: u64,
}

/// What comes next in a unit.
#[derive(Clone, Copy)]
pub enum Turn {
    Ends,
    Passes,
    /// The import of the unit `target`, by the entry at `at`.
    Enters { at: u64, target: u64 },
}

impl<'a> OpenUnit<'a> {
    /// Reads an entry and takes it, or reads the closing 0.
    #[tactic(auto, unfolding(crate::specs::Walk::turn_at))]
    pub fn turn<L: Ledger>(
        &mut self,
        lookup: &Lookup<'a>,
        steps: &mut Steps<L>,
    ) -> Result<Turn, FileFault>
        ensures turn { (s : SectionBytes) (lent : Lent) (paths : List (List ℕ)) → IsLookup lookup.now s lent → Fits paths self.old.files →
            TurnSays s lent paths self.old self.new result }
        ensures same { IsSameUnit self.old self.new }
        ensures moves { OnOk result (MovesOn self.old self.new) }
        ensures inside { IfOk result (λ turn. EntersInside (length lookup.now.macros.now) turn) }
    {
        let place = self.cursor.at() as u64;
        match read_entry(&mut self.cursor, &self.header, steps)? {
            Some(entry) => self.take(lookup, entry),
            None if self.open_files == 0 => Ok(Turn::Ends),
            None => Err(fault(place, UnitKind::StartWithoutEnd)),
        }
    }

    /// Takes an entry that was read.
    fn take(&mut self, lookup: &Lookup<'a>, entry: RawEntry<'a>) -> Result<Turn, FileFault>
        ensures turn { (s : SectionBytes) (lent : Lent) (paths : List (List ℕ)) → IsLookup lookup.now s lent → Fits paths self.old.files →
            EntrySays s lent paths (entry_of entry.entry) self.old self.new result }
        ensures same { IsSameUnit self.old self.new }
        ensures place { self.new.cursor ≡ self.old.cursor }
        ensures inside { IfOk result (λ turn. EntersInside (length lookup.now.macros.now) turn) }
    {
        match lookup.meaning(self.files, entry) {
            Ok(Meaning::Plain(spliced)) => {
                self.pass(entry.at, spliced)?;
                Ok(Turn::Passes)
            }
            Ok(Meaning::Imports(target)) => Ok(Turn::Enters {
                at: entry.at,
                target,
            }),
            Ok(Meaning::Nothing) => Ok(Turn::Passes),
            Err(what) => Err(fault(entry.at, what)),
        }
    }

    /// Takes what an entry says itself, which stands at `at`.
    fn pass(&mut self, at: u64, spliced: Spliced<'a>) -> Result<(), FileFault>
        ensures files { OnOk result ((paths : List (List ℕ)) → files_behind self.old.open_files (named_item paths spliced.entry) ≡ Ok self.new.open_files) }
        ensures links { OnOk result (self.new.links.items ≡ self.old.links.items ++ Own spliced.entry ∷ []) }
        ensures count { OnOk result (self.new.count ≡ together self.old.count 1) }
        ensures err { IfErr result (λ fault. (paths : List (List ℕ)) → IsFaultOf (entry_part at (files_behind self.old.open_files (named_item paths spliced.entry))) fault) }
        ensures same { IsSameUnit self.old self.new }
        ensures place { self.new.cursor ≡ self.old.cursor }
    {
        let files = files_behind(self.open_files, at, spliced)?;
        self.links.push(Link::Own(spliced))?;
        self.open_files = files;
        self.count = together(self.count, 1);
        Ok(())
    }

    /// Takes an imported unit that was read whole. One that stands for nothing is left out.
    pub fn import(&mut self, id: NodeId, count: u64) -> Result<(), NoMemory>
        ensures links { OnOk result (self.new.links.items ≡ (if count == 0 then self.old.links.items else self.old.links.items ++ Import id ∷ [])) }
        ensures count { OnOk result (self.new.count ≡ (if count == 0 then self.old.count else together self.old.count count)) }
        ensures same { IsSameUnit self.old self.new }
        ensures place { self.new.cursor ≡ self.old.cursor }
        ensures files { self.new.open_files ≡ self.old.open_files }
    {
        if count != 0 {
            self.links.push(Link::Import(id))?;
            self.count = together(self.count, count);
        }
        Ok(())
    }
}

/// How many files are open behind an entry that stands at `at`. More than there are numbers don't fit memory.
fn files_behind(files: u64, at: u64, spliced: Spliced<'_>) -> Result<u64, FileFault>
    ensures ok { IfOk result (λ behind. (paths : List (List ℕ)) → files_behind files (named_item paths spliced.entry) ≡ Ok behind) }
    ensures err { IfErr result (λ fault. (paths : List (List ℕ)) → IsFaultOf (entry_part at (files_behind files (named_item paths spliced.entry))) fault) }
{
    match spliced {
        Spliced::Start { .. } => match files.checked_add(1) {
            Some(files) => Ok(files),
            None => Err(FileFault::NoMemory),
        },
        Spliced::End => match files.checked_sub(1) {
            Some(files) => Ok(files),
            None => Err(fault(at, UnitKind::EndWithoutStart)),
        },
        _ => Ok(files),
    }
}

/// A sum that stops rising behind the limit.
fn together(count: u64, more: u64) -> u64
    ensures { result ≡ together count more }
{
    count.saturating_add(more).min(MOST_ENTRIES + 1)
}

/// A fault of a kind at a place.
pub fn fault(at: u64, what: UnitKind) -> FileFault
    ensures { result ≡ fault_at at what }
{
    FileFault::Unit(UnitFault { at, what })
}
