ghost use Rattle.std.specs.Prelude.{◌≡◌, List, ℕ, [], ◌++◌, length, IfOk, IfErr, OnOk, OnErr, Ok, ◌<◌, ◌^◌};
ghost use Rattle.std.specs.Ordering.{nat_cmp};
ghost use Rattle.std.specs.BTreeMap.{get};
ghost use Rattle.mac_base.specs.SectionBytes.{SectionBytes, bytes_of};
ghost use Rattle.line_names.specs.Entries.{tables_in};
ghost use Rattle.line_names.specs.Files.{files_of};
ghost use Rattle.import_graph.specs.Faults.{line_part, IsFaultOf};
ghost use Rattle.import_graph.specs.Meaning.{Lent};
ghost use Rattle.import_graph.specs.Units.{unit_paths, root_paths};
ghost use Rattle.import_graph.specs.Numbers.{paths_of, Fits};
ghost use Rattle.import_graph.specs.Tables.{IsRange, IsLent};

use crate::fault::FileFault;
use crate::meaning::FileRange;
use crate::unit::fault;
use line_names::{LineTables, files_at};
use mac_base::{Bytes, NoMemory, Sections};
use std::alloc::Global;
use std::collections::BTreeMap;
use std::marker::Model;
use unit_header::UnitKind;

/// The line tables that were read so far, each once, and the paths of all of them, one table behind another.
#[derive(Drop)]
pub struct FileLists<'a> {
    tables: LineTables<'a>,
    known: BTreeMap<u64, FileRange>,
    paths: Vec<Bytes>,
}

impl<'a> Model for FileLists<'a> {
    ghost use Rattle.line_names.specs.Entries.{tables_of};
    ghost use Rattle.std.specs.Prelude.{◌<◌, ◌^◌, length};
    ghost use Rattle.import_graph.specs.Tables.{FilesRead, AreRanges};

    ghost Value = { FilesRead };

    ghost view = { λ f. record { tables = tables_of f.tables; paths = f.paths.items } };

    ghost invariant = { λ f. AreRanges (tables_of f.tables) f.paths.items f.known × (length f.paths.items < 2 ^ 32) };
}

impl<'a> FileLists<'a> {
    /// None was read yet.
    pub fn new(alloc: Global, s: &Sections<'a>) -> FileLists<'a>
        ensures { result ≡ record { tables = tables_in (bytes_of s.now); paths = [] } }
    {
        FileLists {
            tables: LineTables::new(s),
            known: BTreeMap::new(alloc),
            paths: Vec::new(alloc),
        }
    }

    /// The paths of the line table at an offset, which is read if it wasn't yet.
    pub fn at(&mut self, alloc: Global, off: u64) -> Result<FileRange, FileFault>
        ensures ok { IfOk result (λ range. IsRange self.old.tables self.new.paths off range) }
        ensures err { IfErr result (λ fault. IsFaultOf (line_part (files_of self.old.tables off)) fault) }
        ensures same { self.new.tables ≡ self.old.tables }
        ensures grows { (more : List (List ℕ)) × (self.new.paths ≡ self.old.paths ++ more) }
    {
        if let Some(range) = range_at(&self.known, off) {
            return Ok(range);
        }
        let more = files_at(alloc, &self.tables, off)?;
        let range = append(&mut self.paths, more.into_vec())?;
        self.known.insert(off, range)?;
        Ok(range)
    }

    /// The files of the unit at an offset: those of the line table that its header names, or else the root's.
    pub fn of_unit(
        &mut self,
        alloc: Global,
        root_files: Option<FileRange>,
        at: u64,
        line: Option<u64>,
    ) -> Result<Option<FileRange>, FileFault>
        requires { at < 2 ^ 63 }
        ensures ok { IfOk result (λ files. (s : SectionBytes) (lent : Lent) → IsLent self.old root_files s lent →
            (unit_paths s lent at line ≡ Ok (paths_of self.new.paths files)) × Fits self.new.paths files) }
        ensures err { IfErr result (λ fault. (s : SectionBytes) (lent : Lent) → IsLent self.old root_files s lent → IsFaultOf (unit_paths s lent at line) fault) }
        ensures same { self.new.tables ≡ self.old.tables }
        ensures grows { (more : List (List ℕ)) × (self.new.paths ≡ self.old.paths ++ more) }
    {
        let Some(off) = line else {
            return Ok(root_files);
        };
        if off >= self.tables.lines.len() as u64 {
            // The offset stands behind the version and the flags.
            return Err(fault(at + 3, UnitKind::LineRange));
        }
        Ok(Some(self.at(alloc, off)?))
    }

    /// The files of a root, if it names a line table.
    pub fn of_root(
        &mut self,
        alloc: Global,
        line: Option<u64>,
    ) -> Result<Option<FileRange>, FileFault>
        ensures ok { IfOk result (λ files. (s : SectionBytes) → self.old.tables ≡ tables_in s → (root_paths s line ≡ Ok (paths_of self.new.paths files)) × Fits self.new.paths files) }
        ensures err { IfErr result (λ fault. (s : SectionBytes) → self.old.tables ≡ tables_in s → IsFaultOf (root_paths s line) fault) }
        ensures same { self.new.tables ≡ self.old.tables }
    {
        let Some(off) = line else {
            return Ok(None);
        };
        let range = self.at(alloc, off)?;
        Ok(Some(range))
    }

    /// All paths that were read.
    pub fn into_paths(self) -> Vec<Bytes>
        ensures paths { result.items ≡ self.entry.paths }
        ensures few { length result.items < 2 ^ 32 }
    {
        let FileLists { paths, .. } = self;
        paths
    }
}

/// The range of a line table that was read.
fn range_at(known: &BTreeMap<u64, FileRange>, off: u64) -> Option<FileRange>
    ensures { result ≡ get nat_cmp known.now off }
{
    known.get(&off).copied()
}

/// Puts the paths of a line table behind the others.
fn append(paths: &mut Vec<Bytes>, more: Vec<Bytes>) -> Result<FileRange, NoMemory>
    ensures ok { IfOk result (λ range. (paths.new.items ≡ paths.old.items ++ more.items) × (range.first ≡ length paths.old.items) × (range.end ≡ length paths.new.items)) }
    ensures few { OnOk result (length paths.new.items < 2 ^ 32) }
    ensures err { OnErr result (paths.new.items ≡ paths.old.items) }
{
    let mut more = more;
    let first = number(paths.len())?;
    let end = number(paths.len() + more.len())?;
    paths.append(&mut more)?;
    Ok(FileRange { first, end })
}

/// The number of a path. Where there are more than have numbers, memory has run out.
fn number(count: usize) -> Result<u32, NoMemory>
    ensures number { IfOk result (λ n. n ≡ count) }
    ensures few { OnOk result (count < 2 ^ 32) }
{
    match u32::try_from(count) {
        Ok(n) => Ok(n),
        Err(_) => Err(NoMemory),
    }
}
