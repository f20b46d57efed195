ghost use Rattle.std.specs.Prelude.{◌≡◌, ℕ, List, [], ◌++◌, ◌<◌, length, IfOk, IfErr, Ok};
ghost use Rattle.mac_base.specs.SectionBytes.{SectionBytes};
ghost use Rattle.unit_header.specs.Header.{header_of};
ghost use Rattle.unit_header.specs.Reading.{header_at};
ghost use Rattle.import_graph.specs.Faults.{IsFaultOf};
ghost use Rattle.import_graph.specs.Meaning.{Lent};
ghost use Rattle.import_graph.specs.Numbers.{Fits, IsLookup, paths_of};
ghost use Rattle.import_graph.specs.Tables.{IsLent};
ghost use Rattle.import_graph.specs.Units.{unit_paths, begun};
ghost use Rattle.import_graph.specs.Turns.{reader_of};

use crate::fault::FileFault;
use crate::files::FileLists;
use crate::meaning::{FileRange, Lookup};
use crate::unit::OpenUnit;
use mac_base::Cursor;
use std::alloc::Global;
use unit_header::read_header;

/// Begins the unit at an offset: its header comes first, and then its line table.
pub fn begin<'a>(
    alloc: Global,
    lookup: &Lookup<'a>,
    files: &mut FileLists<'a>,
    root_files: Option<FileRange>,
    at: u64,
) -> Result<OpenUnit<'a>, FileFault>
    requires { at < length lookup.now.macros.now }
    ensures header { IfOk result (λ unit. header_at (record { bytes = lookup.now.macros.now; at = at }) ≡ Ok (header_of unit.header, unit.cursor)) }
    ensures unit { IfOk result (λ unit. (s : SectionBytes) (lent : Lent) → IsLookup lookup.now s lent → IsLent files.old root_files s lent →
        (unit_paths s lent at unit.header.line ≡ Ok (paths_of files.new.paths unit.files)) × (begun s lent at ≡ Ok (reader_of files.new.paths unit, unit.cursor)) × Fits files.new.paths unit.files) }
    ensures new { IfOk result (λ unit. (unit.at ≡ at) × (unit.open_files ≡ 0) × (unit.links.items ≡ []) × (unit.count ≡ 0)) }
    ensures err { IfErr result (λ fault. (s : SectionBytes) (lent : Lent) → IsLookup lookup.now s lent → IsLent files.old root_files s lent → IsFaultOf (begun s lent at) fault) }
    ensures same { files.new.tables ≡ files.old.tables }
    ensures grows { (more : List (List ℕ)) × (files.new.paths ≡ files.old.paths ++ more) }
{
    let mut cursor = Cursor::new(lookup.macros, at as usize);
    let header = read_header(&mut cursor)?;
    let files = files.of_unit(alloc, root_files, at, header.line)?;
    Ok(OpenUnit {
        at,
        header,
        files,
        cursor,
        open_files: 0,
        links: Vec::new(alloc),
        count: 0,
    })
}
