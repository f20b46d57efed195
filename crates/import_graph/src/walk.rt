ghost use Rattle.std.specs.Prelude.{◌≡◌, ℕ, ◌+◌, ◌<◌, ◌≤◌, ◌∷◌, length, reverse, IfOk, IfErr, OnOk};
ghost use Rattle.std.specs.Ordering.{nat_cmp};
ghost use Rattle.std.specs.List.{sum_by};
ghost use Rattle.std.specs.BTreeMap.{get};
ghost use Rattle.mac_base.specs.Input.{rest};
ghost use Rattle.mac_base.specs.SectionBytes.{SectionBytes};
ghost use Rattle.import_graph.specs.declared.fault.FileFault.TheVariants.{NoMemory as RanOut};
ghost use Rattle.import_graph.specs.declared.unit.Turn.TheVariants.{Ends as HeldEnds, Enters as HeldEnters};
ghost use Rattle.import_graph.specs.Faults.{IsFaultOf};
ghost use Rattle.import_graph.specs.Meaning.{Lent};
ghost use Rattle.import_graph.specs.Numbers.{IsLookup};
ghost use Rattle.import_graph.specs.Tables.{IsLent};
ghost use Rattle.import_graph.specs.Units.{begun};
ghost use Rattle.import_graph.specs.Nodes.{count_at};
ghost use Rattle.import_graph.specs.Progress.{WalkStands, IsFaultFrom, GoesOn, StopsBy, IsBegun, Entered, Resumes, IsWalked, effort_of, left_in};

use crate::begin::begin;
use crate::fault::FileFault;
use crate::files::FileLists;
use crate::meaning::{FileRange, Lookup};
use crate::node::{Node, NodeId};
use crate::unit::{OpenUnit, Turn, fault};
use mac_base::{NoMemory, Steps};
use std::alloc::Global;
use std::collections::BTreeMap;
use std::sync::ledger::Ledger;
use unit_header::UnitKind;

/// How far a unit is.
#[derive(Clone, Copy, Debug, PartialEq, Eq)]
pub enum Visit {
    Open,
    Done(NodeId),
}

/// The walk of a root's units.
#[derive(Drop)]
pub struct Walk<'a> {
    pub alloc: Global,
    pub lookup: Lookup<'a>,
    pub files: FileLists<'a>,
    /// The files of the root's own line table.
    pub root_files: Option<FileRange>,
    /// The units that were entered, by their offsets.
    pub seen: BTreeMap<u64, Visit>,
    /// Those that were read whole.
    pub nodes: Vec<Node<'a>>,
    /// Those that are being walked, the innermost last.
    pub open: Vec<OpenUnit<'a>>,
}

/// The units that were read whole, each behind those that it imports, and all paths.
#[derive(Drop)]
pub struct Walked<'a> {
    pub nodes: Vec<Node<'a>>,
    pub files: FileLists<'a>,
}

impl<'a> Walk<'a> {
    /// Begins the walk of the unit at an offset.
    pub fn start(
        alloc: Global,
        lookup: Lookup<'a>,
        files: FileLists<'a>,
        root_files: Option<FileRange>,
        at: u64,
    ) -> Result<Walk<'a>, FileFault>
        requires { at < length lookup.macros.now }
        ensures ok { IfOk result (λ walk. (s : SectionBytes) (lent : Lent) → IsLookup lookup.entry s lent → IsLent files.entry root_files s lent →
            WalkStands s lent at walk (reverse walk.open.items)) }
        ensures err { IfErr result (λ fault. (s : SectionBytes) (lent : Lent) → IsLookup lookup.entry s lent → IsLent files.entry root_files s lent → IsFaultOf (begun s lent at) fault) }
    {
        let mut walk = Walk {
            alloc,
            lookup,
            files,
            root_files,
            seen: BTreeMap::new(alloc),
            nodes: Vec::new(alloc),
            open: Vec::new(alloc),
        };
        let unit = walk.enter(at)?;
        walk.open.push(unit)?;
        Ok(walk)
    }

    /// Walks all that is left.
    pub fn finish<L: Ledger>(self, steps: &mut Steps<L>) -> Result<Walked<'a>, FileFault>
        ensures ok { IfOk result (λ walked. (s : SectionBytes) (lent : Lent) (root : ℕ) → WalkStands s lent root self.entry (reverse self.entry.open.items) →
            IsWalked s lent root walked.nodes.items walked.files.paths) }
        ensures err { IfErr result (λ fault. (s : SectionBytes) (lent : Lent) (root : ℕ) → WalkStands s lent root self.entry (reverse self.entry.open.items) → IsFaultFrom s lent root fault) }
    {
        let mut walk = self;
        while let Some(unit) = walk.open.pop() {
            walk.turn(unit, steps)?;
        }
        let Walk { nodes, files, .. } = walk;
        Ok(Walked { nodes, files })
    }

    /// Reads the next entry of the innermost unit, which was taken from the list.
    fn turn<L: Ledger>(&mut self, unit: OpenUnit<'a>, steps: &mut Steps<L>) -> Result<(), FileFault>
        ensures ok { OnOk result ((s : SectionBytes) (lent : Lent) (root : ℕ) → WalkStands s lent root self.old (unit.entry ∷ reverse self.old.open.items) →
            WalkStands s lent root self.new (reverse self.new.open.items)) }
        ensures err { IfErr result (λ fault. (s : SectionBytes) (lent : Lent) (root : ℕ) → WalkStands s lent root self.old (unit.entry ∷ reverse self.old.open.items) → IsFaultFrom s lent root fault) }
        ensures same { self.new.lookup ≡ self.old.lookup }
        ensures smaller { OnOk result (effort_of self.new < effort_of self.old + left_in unit.entry) }
    {
        let mut unit = unit;
        match unit.turn(&self.lookup, steps)? {
            Turn::Passes => {
                self.open.push(unit)?;
                Ok(())
            }
            Turn::Enters { at, target } => {
                self.import(unit, at, target)?;
                Ok(())
            }
            Turn::Ends => {
                self.end(unit)?;
                Ok(())
            }
        }
    }

    /// Goes on behind the import of a unit that was read whole, or enters one that wasn't.
    fn import(&mut self, unit: OpenUnit<'a>, at: u64, target: u64) -> Result<(), FileFault>
        requires { target < length self.old.lookup.macros.now }
        ensures ok { OnOk result (GoesOn self.old self.new unit.entry (HeldEnters at target)) }
        ensures err { IfErr result (λ fault. StopsBy self.old unit.entry (HeldEnters at target) fault) }
        ensures same { self.new.lookup ≡ self.old.lookup }
        ensures no_more { OnOk result (effort_of self.new ≤ effort_of self.old + left_in unit.entry) }
    {
        match visit_at(&self.seen, target) {
            Some(Visit::Open) => Err(fault(at, UnitKind::ImportCycle)),
            Some(Visit::Done(id)) => {
                let mut unit = unit;
                unit.import(id, count_at(self.nodes.as_slice(), id))?;
                self.open.push(unit)?;
                Ok(())
            }
            None => {
                let inner = self.enter(target)?;
                self.open.push(unit)?;
                self.open.push(inner)?;
                Ok(())
            }
        }
    }

    /// The unit is read whole, and the one that imported it goes on.
    fn end(&mut self, unit: OpenUnit<'a>) -> Result<(), NoMemory>
        ensures ok { OnOk result (GoesOn self.old self.new unit.entry HeldEnds) }
        ensures same { self.new.lookup ≡ self.old.lookup }
        ensures no_more { OnOk result (effort_of self.new ≤ effort_of self.old + left_in unit.entry) }
    {
        let OpenUnit {
            at,
            links,
            count,
            ..
        } = unit;
        let id = NodeId {
            index: self.nodes.len(),
        };
        self.nodes.push(Node { links, count })?;
        self.seen.insert(at, Visit::Done(id))?;
        resume(&mut self.open, id, count)?;
        Ok(())
    }

    /// Begins the unit at an offset.
    fn enter(&mut self, at: u64) -> Result<OpenUnit<'a>, FileFault>
        requires { at < length self.old.lookup.macros.now }
        ensures begun { IfOk result (λ unit. (s : SectionBytes) (lent : Lent) → IsLookup self.old.lookup s lent → IsLent self.old.files self.old.root_files s lent → IsBegun s lent at self.new.files.paths unit) }
        ensures inside { IfOk result (λ unit. length (rest unit.cursor) ≤ length self.old.lookup.macros.now) }
        ensures err { IfErr result (λ fault. (s : SectionBytes) (lent : Lent) → IsLookup self.old.lookup s lent → IsLent self.old.files self.old.root_files s lent → IsFaultOf (begun s lent at) fault) }
        ensures entered { OnOk result (Entered self.old self.new at) }
        ensures same { self.new.lookup ≡ self.old.lookup }
    {
        let unit = begin(
            self.alloc,
            &self.lookup,
            &mut self.files,
            self.root_files,
            at,
        )?;
        self.seen.insert(at, Visit::Open)?;
        Ok(unit)
    }
}

/// How far the unit at an offset is, if it was entered.
fn visit_at(seen: &BTreeMap<u64, Visit>, at: u64) -> Option<Visit>
    ensures { result ≡ get nat_cmp seen.now at }
{
    seen.get(&at).copied()
}

/// How many entries a unit stands for that was read whole.
pub fn count_at(nodes: &[Node<'_>], id: NodeId) -> u64
    ensures { result ≡ count_at nodes.now id.index }
{
    match nodes.get(id.index) {
        Some(node) => node.count,
        None => 0,
    }
}

/// The innermost unit, if there is one, takes the imported one, and goes on.
fn resume(waiting: &mut Vec<OpenUnit<'_>>, id: NodeId, count: u64) -> Result<(), NoMemory>
    ensures ok { OnOk result (Resumes id count (reverse waiting.old.items) (reverse waiting.new.items)) }
    ensures sum { OnOk result (sum_by left_in waiting.new.items ≡ sum_by left_in waiting.old.items) }
{
    let Some(outer) = waiting.pop() else {
        return Ok(());
    };
    let mut outer = outer;
    outer.import(id, count)?;
    waiting.push(outer)?;
    Ok(())
}
