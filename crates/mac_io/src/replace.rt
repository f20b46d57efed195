// Files of the system that are written: a regular file is replaced whole.
ghost use Rattle.std.specs.Prelude.{◌≡◌, OnOk, IfOk};
ghost use Rattle.std.specs.Io.KnownBytes.{Appends};
ghost use Rattle.mac_io.specs.System.{path_beside};

use crate::path_text::folder_of;
use mac_base::{Bytes, NoMemory};
use std::alloc::Global;
use std::fs::{OpenFile, OpenOptions, Permissions};
use std::io::{ErrorKind, Write};
use std::rt::Files;
use std::{fs, io, str};

/// Why a file was not written.
#[derive(Clone, Copy, Debug, PartialEq, Eq)]
pub enum NotWritten {
    /// The system has an error.
    Fault,
    /// Memory ran out, and nothing has changed.
    NoMemory,
}

impl From<io::Error> for NotWritten {
    fn from(_error: io::Error) -> NotWritten {
        NotWritten::Fault
    }
}

impl From<NoMemory> for NotWritten {
    fn from(_error: NoMemory) -> NotWritten {
        NotWritten::NoMemory
    }
}

/// Makes these bytes the content of the file at a path. A regular file, also one that a symbolic link leads to, is replaced
/// whole and keeps its permissions: where anything fails, it is as before. What is no regular file, as a device or a
/// pipe, is written in place. A path that is not UTF-8 is an error.
/// No clause can say what a file of the system holds, so there is none; `a_regular_file_is_replaced_whole` and the tests after
/// it in `real_tests.rt` show it.
pub fn write_file<R: Files>(
    rt: &R,
    alloc: Global,
    path: &[u8],
    bytes: &[u8],
) -> Result<(), NotWritten> {
    let path = text_of(path)?;
    match rt.metadata(path) {
        Ok(found) if found.is_file() => {
            let target = rt.canonicalize(alloc, path)?;
            let permissions = Some(found.permissions());
            replace(rt, alloc, target.as_path().as_str(), permissions, bytes)
        }
        Ok(_) => Ok(write_in_place(rt, path, bytes)?),
        Err(error) if error.kind() == ErrorKind::NotFound => create(rt, alloc, path, bytes),
        Err(_) => Err(NotWritten::Fault),
    }
}

/// Makes a file where none is. For a symbolic link to nothing its target is made, and taken away again where anything fails.
fn create<R: Files>(rt: &R, alloc: Global, path: &str, bytes: &[u8]) -> Result<(), NotWritten> {
    if rt.symlink_metadata(path).is_err() {
        return replace(rt, alloc, path, None, bytes);
    }
    let _empty = fs::create(rt, path)?;
    let target = rt.canonicalize(alloc, path)?;
    let target = target.as_path().as_str();
    let done = replace(rt, alloc, target, None, bytes);
    if done.is_err() {
        let _ = rt.remove_file(target);
    }
    done
}

/// Writes a new file in the folder of the target and puts it in the target's place; takes it away where anything fails.
fn replace<R: Files>(
    rt: &R,
    alloc: Global,
    target: &str,
    permissions: Option<Permissions>,
    bytes: &[u8],
) -> Result<(), NotWritten> {
    let (mut file, path) = create_beside(rt, alloc, target)?;
    let beside = text_of(path.as_slice())?;
    let filled = fill(&mut file, permissions, bytes);
    let done = if filled.is_ok() {
        rt.rename(beside, target)
    } else {
        filled
    };
    if done.is_err() {
        let _ = rt.remove_file(beside);
    }
    Ok(done?)
}

/// Makes a new file in the folder of another, and tells its path. A path that is taken, as by a run that was killed, is passed
/// over.
fn create_beside<R: Files>(
    rt: &R,
    alloc: Global,
    path: &str,
) -> Result<(R::File, Bytes), NotWritten> {
    for number in 0..u32::MAX {
        let beside = path_beside(alloc, path.as_bytes(), number)?;
        let opened = OpenOptions::new()
            .write(true)
            .create_new(true)
            .open(rt, text_of(beside.as_slice())?);
        match opened {
            Ok(file) => return Ok((file, beside)),
            Err(error) if error.kind() == ErrorKind::AlreadyExists => {}
            Err(_) => return Err(NotWritten::Fault),
        }
    }
    Err(NotWritten::Fault)
}

/// The path of this number for a new file in the folder of another, where a rename stays in one file system.
fn path_beside(alloc: Global, path: &[u8], number: u32) -> Result<Bytes, NoMemory>
    ensures { IfOk result (λ beside. beside ≡ path_beside path.now number) }
{
    let name = format!(in alloc; ".dwmac-{number}.tmp")?;
    let mut beside = Vec::from_slice(alloc, folder_of(path))?;
    beside.extend_from_slice(name.as_bytes())?;
    Ok(Bytes::from_vec(beside))
}

/// Writes the bytes to a new file, and to the disk. Its permissions are set before it has any content.
fn fill<F: Write + OpenFile>(
    file: &mut F,
    permissions: Option<Permissions>,
    bytes: &[u8],
) -> io::Result<()>
    ensures { OnOk result (Appends (F.contents file.old) (F.contents file.new) bytes.now) }
{
    if let Some(permissions) = permissions {
        file.set_permissions(permissions)?;
    }
    file.write_all(bytes)?;
    file.sync_all()
}

/// Writes the bytes to what the system has at a path.
fn write_in_place<R: Files>(rt: &R, path: &str, bytes: &[u8]) -> io::Result<()> {
    let mut file = fs::create(rt, path)?;
    file.write_all(bytes)
}

/// A path as text.
fn text_of(path: &[u8]) -> Result<&str, NotWritten> {
    str::from_utf8(path).map_err(|_| NotWritten::Fault)
}
