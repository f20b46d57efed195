ghost use Rattle.mac_base.specs.SectionBytes.{bytes_of};
ghost use Rattle.mac_base.specs.Answers.{AnswersAs, TakesAs};
ghost use Rattle.line_names.specs.Faults.{ran_out};
ghost use Rattle.line_names.specs.Entries.{tables_of, tables_in};
ghost use Rattle.line_names.specs.Files.{files_of, unit_at};

use crate::fault::LineFault;
use crate::header::read_header;
use crate::path::{read_directories, read_paths};
use crate::sections::LineTables;
use mac_base::{Cursor, Paths, Sections, Sizes, extent_at};
use std::alloc::Global;

/// The paths of the files that the line table at an offset of `.debug_line` names, by their indexes from 0 on, or the
/// first fault of the table.
pub fn read_files(alloc: Global, s: &Sections<'_>, off: u64) -> Result<Paths, LineFault>
    ensures { AnswersAs ran_out (λ paths. paths) result (files_of (tables_in (bytes_of s.now)) off) }
{
    files_at(alloc, &LineTables::new(s), off)
}

/// The same for whoever reads many tables.
pub fn files_at(alloc: Global, tables: &LineTables<'_>, off: u64) -> Result<Paths, LineFault>
    ensures { AnswersAs ran_out (λ paths. paths) result (files_of (tables_of tables.now) off) }
{
    let extent = extent_at(tables.lines, off as usize)?;
    let mut cursor = Cursor::new(&tables.lines[..extent.end], extent.start);
    read_unit(alloc, &mut cursor, tables, extent.wide)
}

/// The files of a unit, from its version on.
#[tactic(auto, unfolding(crate::specs::Files::unit_at))]
fn read_unit<'a>(
    alloc: Global,
    cursor: &mut Cursor<'a>,
    tables: &LineTables<'a>,
    wide: bool,
) -> Result<Paths, LineFault>
    ensures { TakesAs ran_out (λ paths. paths) cursor.new result (unit_at (tables_of tables.now) wide cursor.old) }
{
    let address = read_header(cursor, wide)?;
    let sizes = Sizes { wide, address };
    let directories = read_directories(alloc, cursor, tables, sizes)?;
    read_paths(alloc, cursor, tables, sizes, directories.as_slice())
}
