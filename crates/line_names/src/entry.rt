ghost use Rattle.std.specs.Prelude.{◌≡◌};
ghost use Rattle.mac_base.specs.Input.{Reads};
ghost use Rattle.mac_base.specs.Values.{value_of};
ghost use Rattle.line_names.specs.Faults.{Says};
ghost use Rattle.line_names.specs.Entries.{name_of, entry_of, tables_of, strings_of, path_by, index_by, number_in, content_read, entry_at, no_entry};

use crate::fault::{LineFault, LineKind};
use crate::format::{Content, Role};
use crate::sections::LineTables;
use mac_base::{Cursor, Form, Sizes, Value, read_value};
use string_sections::string_at;

/// A path, by where its bytes lie. One in a section of strings is walked when it is used, since many entries may name
/// one long string.
#[derive(Clone, Copy, Debug, PartialEq, Eq)]
pub enum Name<'a> {
    /// The path itself.
    Here(&'a [u8]),
    /// The string at an offset of a section.
    At { section: &'a [u8], off: u64 },
}

impl<'a> Name<'a> {
    /// The path.
    pub fn text(&self) -> &'a [u8]
        ensures { result.now ≡ name_of self.now }
    {
        match self {
            Name::Here(text) => text,
            Name::At { section, off } => match string_at(section, *off) {
                Ok(text) => text,
                Err(_) => b"",
            },
        }
    }
}

/// A directory or a file (6.2.4.1).
#[derive(Clone, Copy, Debug, PartialEq, Eq)]
pub struct Entry<'a> {
    pub path: Name<'a>,
    /// The index of its directory, 0 where its format has none.
    pub directory: u64,
}

/// What the fields of entries are read by.
#[derive(Clone, Copy, Debug, PartialEq, Eq)]
pub struct Measures {
    pub sizes: Sizes,
    /// How many directories there are, where the index of a directory counts.
    pub directories: Option<u64>,
}

/// Reads an entry, content by content.
pub fn read_entry<'a>(
    cursor: &mut Cursor<'a>,
    tables: &LineTables<'a>,
    measures: Measures,
    format: &[Content],
) -> Result<Entry<'a>, LineFault>
    ensures { Reads entry_of cursor.new result (entry_at (tables_of tables.now) measures format.now no_entry cursor.old) }
{
    let mut entry = Entry {
        path: Name::Here(b""),
        directory: 0,
    };
    for content in format {
        entry = with_content(cursor, tables, measures, *content, entry)?;
    }
    Ok(entry)
}

/// Reads the next content of an entry.
fn with_content<'a>(
    cursor: &mut Cursor<'a>,
    tables: &LineTables<'a>,
    measures: Measures,
    content: Content,
    entry: Entry<'a>,
) -> Result<Entry<'a>, LineFault>
    ensures { Reads entry_of cursor.new result
        (content_read (tables_of tables.now) measures content (entry_of entry.entry) cursor.old) }
{
    let at = cursor.at() as u64;
    let value = read_value(cursor, content.form, measures.sizes)?;
    match content.role {
        Role::Path => {
            let path = path_of(tables, at, content.form, value)?;
            Ok(Entry {
                path,
                directory: entry.directory,
            })
        }
        Role::Directory => {
            let directory = directory_of(measures.directories, at, value)?;
            Ok(Entry {
                path: entry.path,
                directory,
            })
        }
        Role::Other => Ok(entry),
    }
}

/// The path that a value says. `StrRange` where it is an offset at which no string is.
fn path_of<'a>(
    tables: &LineTables<'a>,
    at: u64,
    form: Form,
    value: Value<'a>,
) -> Result<Name<'a>, LineFault>
    ensures { Says name_of result (path_by (strings_of (tables_of tables.now) form) at (value_of value.entry)) }
{
    let off = match value {
        Value::Text(text) => return Ok(Name::Here(text)),
        Value::Number(off) => off,
        _ => return Ok(Name::Here(b"")),
    };
    let strings = match form {
        Form::LineStrp => &tables.line_strs,
        _ => &tables.strs,
    };
    if strings.is_string(off) {
        Ok(Name::At {
            section: strings.section(),
            off,
        })
    } else {
        Err(LineFault::new(at, LineKind::StrRange))
    }
}

/// The index of a directory that a value says. `DirIndex` where it has to be below a number and is not; index 0 is
/// always good.
fn directory_of(directories: Option<u64>, at: u64, value: Value<'_>) -> Result<u64, LineFault>
    ensures { Says (λ n. n) result (index_by directories at (number_in (value_of value.entry))) }
{
    let index = match value {
        Value::Number(index) => index,
        _ => 0,
    };
    match directories {
        Some(count) if index != 0 && count <= index => {
            Err(LineFault::new(at, LineKind::DirIndex))
        }
        _ => Ok(index),
    }
}
