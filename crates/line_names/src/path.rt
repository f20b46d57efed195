ghost use Rattle.std.specs.Prelude.{◌≡◌, IfOk, ◌∷◌, ◌++◌, length, map};
ghost use Rattle.mac_base.specs.Input.{Reads};
ghost use Rattle.mac_base.specs.Answers.{TakesAs};
ghost use Rattle.line_names.specs.Faults.{ran_out};
ghost use Rattle.line_names.specs.Entries.{name_of, entry_of, tables_of};
ghost use Rattle.line_names.specs.Files.{path_in, is_absolute, directory_in, count_at, directory_at, file_at, repeat_at, directories_at, paths_at, for_directories};

use crate::entry::{Entry, Measures, Name, read_entry};
use crate::fault::{LineFault, LineKind};
use crate::format::{Content, Role, has, read_format};
use crate::sections::LineTables;
use mac_base::{Bytes, Cursor, NoMemory, Paths, Sizes};
use std::alloc::Global;

/// Reads the directories.
#[tactic(auto, unfolding(crate::specs::Files::directories_at))]
pub fn read_directories<'a>(
    alloc: Global,
    cursor: &mut Cursor<'a>,
    tables: &LineTables<'a>,
    sizes: Sizes,
) -> Result<Vec<Name<'a>>, LineFault>
    ensures { TakesAs ran_out (λ v. map name_of v.items) cursor.new result (directories_at (tables_of tables.now) sizes cursor.old) }
{
    let format = read_format(alloc, cursor)?;
    let count = read_count(cursor, format.as_slice())?;
    let measures = Measures {
        sizes,
        directories: None,
    };
    read_names(alloc, cursor, tables, measures, format.as_slice(), count)
}

/// Reads the files, each as its path.
#[tactic(auto, unfolding(crate::specs::Files::paths_at))]
pub fn read_paths<'a>(
    alloc: Global,
    cursor: &mut Cursor<'a>,
    tables: &LineTables<'a>,
    sizes: Sizes,
    directories: &[Name<'a>],
) -> Result<Paths, LineFault>
    ensures { TakesAs ran_out (λ paths. paths) cursor.new result
        (paths_at (tables_of tables.now) sizes (map name_of directories.now) cursor.old) }
{
    let format = read_format(alloc, cursor)?;
    let count = read_count(cursor, format.as_slice())?;
    read_files_of(
        alloc,
        cursor,
        tables,
        sizes,
        directories,
        format.as_slice(),
        count,
    )
}

/// Reads the number of entries. `NoPath` where there are some without a path.
fn read_count(cursor: &mut Cursor<'_>, format: &[Content]) -> Result<u64, LineFault>
    ensures { Reads (λ n. n) cursor.new result (count_at format.now cursor.old) }
{
    let at = cursor.at() as u64;
    let count = cursor.uleb()?;
    if count == 0 || has(format, Role::Path) {
        Ok(count)
    } else {
        Err(LineFault::new(at, LineKind::NoPath))
    }
}

/// Reads so many directories.
fn read_names<'a>(
    alloc: Global,
    cursor: &mut Cursor<'a>,
    tables: &LineTables<'a>,
    measures: Measures,
    format: &[Content],
    count: u64,
) -> Result<Vec<Name<'a>>, LineFault>
    ensures { TakesAs ran_out (λ v. map name_of v.items) cursor.new result
        (repeat_at (directory_at (tables_of tables.now) measures format.now) count cursor.old) }
{
    let mut names = Vec::new(alloc);
    for _index in 0..count {
        let entry = read_entry(cursor, tables, measures, format)?;
        names.push(entry.path)?;
    }
    Ok(names)
}

/// Reads so many files.
fn read_files_of<'a>(
    alloc: Global,
    cursor: &mut Cursor<'a>,
    tables: &LineTables<'a>,
    sizes: Sizes,
    directories: &[Name<'a>],
    format: &[Content],
    count: u64,
) -> Result<Paths, LineFault>
    ensures { TakesAs ran_out (λ paths. paths) cursor.new result
        (repeat_at (file_at (tables_of tables.now) sizes (map name_of directories.now) format.now) count cursor.old) }
{
    let mut paths = Paths::new(alloc);
    for _index in 0..count {
        let path = read_path(alloc, cursor, tables, sizes, directories, format)?;
        paths.push(path)?;
    }
    Ok(paths)
}

/// Reads a file, as its path.
fn read_path<'a>(
    alloc: Global,
    cursor: &mut Cursor<'a>,
    tables: &LineTables<'a>,
    sizes: Sizes,
    directories: &[Name<'a>],
    format: &[Content],
) -> Result<Bytes, LineFault>
    ensures { TakesAs ran_out (λ path. path) cursor.new result
        (file_at (tables_of tables.now) sizes (map name_of directories.now) format.now cursor.old) }
{
    let measures = Measures {
        sizes,
        directories: Some(directories.len() as u64),
    };
    let entry = read_entry(cursor, tables, measures, format)?;
    Ok(path_of(alloc, directories, &entry)?)
}

/// The path of a file: its name where that begins with `/` or its directory is the first, else the directory, `/` and
/// the name.
fn path_of(alloc: Global, directories: &[Name<'_>], entry: &Entry<'_>) -> Result<Bytes, NoMemory>
    ensures { IfOk result (λ path. path ≡ path_in (map name_of directories.now) (entry_of entry.now)) }
{
    let name = entry.path.text();
    if entry.directory == 0 || begins_with_slash(name) {
        return Bytes::from_slice(alloc, name);
    }
    joined(alloc, text_of(directories, entry.directory), name)
}

/// Whether a name is a path of its own.
fn begins_with_slash(name: &[u8]) -> bool
    ensures { result ≡ is_absolute name.now }
{
    match name {
        [first, ..] => *first == b'/',
        [] => false,
    }
}

/// The text of a directory.
fn text_of<'a>(directories: &[Name<'a>], index: u64) -> &'a [u8]
    ensures { result.now ≡ directory_in (map name_of directories.now) index }
{
    match directories.get(index as usize) {
        Some(name) => name.text(),
        None => b"",
    }
}

/// A directory, `/` and a name.
fn joined(alloc: Global, directory: &[u8], name: &[u8]) -> Result<Bytes, NoMemory>
    ensures { IfOk result (λ path. path ≡ directory.now ++ 47 ∷ name.now) }
{
    let mut path = Vec::from_slice(alloc, directory)?;
    path.push(b'/')?;
    path.extend_from_slice(name)?;
    Ok(Bytes::from_vec(path))
}
