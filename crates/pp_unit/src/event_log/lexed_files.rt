// Files that were cut into tokens. A file that is included again has its bytes from the store again; where they are the
// same as before, what was cut then is used again.
ghost use Rattle.std.specs.Prelude.{◌≡◌, ◌⊎◌, IfOk, IfErr, IfSome, Ok, true};
ghost use Rattle.pp_tokens.specs.Cut.{LexesFile};
ghost use Rattle.pp_unit.specs.declared.fault.PpKind.TheVariants.{NoMemory as RanOut};
ghost use Rattle.pp_unit.specs.Stopping.{IsUnlexed};

use crate::fault::PpKind;
use mac_base::NoMemory;
use pp_tokens::{LexFault, Line, Lines, lex_file};
use std::alloc::Global;
use std::collections::BTreeMap;
use std::marker::Model;
use std::rc::Rc;

/// The most bytes that the files whose lines are kept have together.
const KEPT_LIMIT: usize = 1_048_576;

/// The lines of a file, which are shared.
#[derive(Drop)]
pub struct FileLines {
    lines: Rc<Lines>,
}

impl Model for FileLines {
    ghost use Rattle.std.specs.Prelude.{List};
    ghost use Rattle.pp_tokens.specs.declared.line.Line.{Line};

    ghost Value = { List Line };

    ghost view = { λ f. f.lines.value };
}

/// A file that was cut: its bytes and its lines.
#[derive(Drop)]
struct LexedFile {
    bytes: Vec<u8>,
    lines: FileLines,
}

impl Model for LexedFile {
    ghost use Rattle.std.specs.Prelude.{ℕ, List, Ok};
    ghost use Rattle.pp_tokens.specs.declared.line.Line.{Line};
    ghost use Rattle.pp_tokens.specs.Cut.{LexesFile};

    ghost Value = { List ℕ × List Line };

    ghost view = { λ f. (f.bytes.items, f.lines) };

    ghost invariant = { λ f. LexesFile f.bytes.items (Ok f.lines) };
}

/// Files that were cut, each by the number of its path.
#[derive(Drop)]
pub struct LexedFiles {
    alloc: Global,
    files: BTreeMap<usize, LexedFile>,
    /// How many bytes all files have together that were ever kept.
    kept: usize,
}

impl Model for LexedFiles {
    ghost use Rattle.std.specs.Prelude.{◌≤◌, ℕ, length, sum_by};
    ghost use Rattle.std.specs.BTreeMap.{values};

    ghost Value = { ℕ };

    ghost view = { λ f. f.kept };

    ghost invariant = { λ f. (sum_by (λ file. length file.0) (values f.files) ≤ f.kept) × (f.kept ≤ 1048576) };
}

/// The lines of a file, or its fault with the line of that fault.
fn lexed(alloc: Global, bytes: &[u8]) -> Result<Lines, (u64, PpKind)>
    ensures ok { IfOk result (λ lines. LexesFile bytes.now (Ok lines)) }
    ensures err { IfErr result (λ f. (f.1 ≡ RanOut) ⊎ IsUnlexed bytes.now f.0 f.1) }
{
    match lex_file(alloc, bytes) {
        Ok(lines) => Ok(lines),
        Err(LexFault::NoMemory) => Err((0, PpKind::NoMemory)),
        Err(LexFault::NulByte { line }) => { Err((line, PpKind::Lex(LexFault::NulByte { line }))) }
        Err(LexFault::OpenComment { line }) => {
            Err((line, PpKind::Lex(LexFault::OpenComment { line })))
        }
    }
}

impl FileLines {
    /// The lines of a file that was just cut.
    fn new(alloc: Global, lines: Lines) -> Result<FileLines, NoMemory>
        ensures { IfOk result (λ same. same ≡ lines) }
    {
        Ok(FileLines {
            lines: Rc::new(alloc, lines)?,
        })
    }

    /// The same lines, shared once more.
    fn share(&self) -> Result<FileLines, NoMemory>
        ensures { IfOk result (λ same. same ≡ self.now) }
    {
        Ok(FileLines {
            lines: self.lines.clone()?,
        })
    }

    /// The lines in order.
    pub fn as_slice(&self) -> &[Line]
        ensures { result.now ≡ self.now }
    {
        self.lines.as_ref().as_slice()
    }
}

impl LexedFile {
    /// Whether these are its bytes.
    fn has(&self, bytes: &[u8]) -> bool
        ensures { result ≡ true → LexesFile bytes.now (Ok self.now.1) }
    {
        self.bytes.as_slice() == bytes
    }
}

impl LexedFiles {
    /// No files. Takes no memory.
    pub fn new(alloc: Global) -> LexedFiles
        ensures { result ≡ 0 }
    {
        LexedFiles {
            alloc,
            files: BTreeMap::new(alloc),
            kept: 0,
        }
    }

    /// The lines that are kept by this number, where they were cut of these bytes.
    fn known(&self, number: usize, bytes: &[u8]) -> Option<&FileLines>
        ensures { IfSome result (λ lines. LexesFile bytes.now (Ok lines.now)) }
    {
        let file = self.files.get(&number)?;
        if file.has(bytes) {
            Some(&file.lines)
        } else {
            None
        }
    }

    /// Keeps the lines of a file by this number with a copy of its bytes, where there is room for as many.
    fn keep(&mut self, number: usize, bytes: &[u8], lines: &FileLines) -> Result<(), NoMemory>
        requires { LexesFile bytes.now (Ok lines.now) }
    {
        let long = bytes.len();
        if long <= KEPT_LIMIT - self.kept {
            let file = LexedFile {
                bytes: Vec::from_slice(self.alloc, bytes)?,
                lines: lines.share()?,
            };
            self.files.insert(number, file)?;
            self.kept += long;
        }
        Ok(())
    }

    /// The lines of a file that was just cut.
    fn with_new(&mut self, number: usize, bytes: &[u8], lines: Lines) -> Result<FileLines, NoMemory>
        requires { LexesFile bytes.now (Ok lines) }
        ensures { IfOk result (λ same. same ≡ lines) }
    {
        let lines = FileLines::new(self.alloc, lines)?;
        self.keep(number, bytes, &lines)?;
        Ok(lines)
    }

    /// The lines of the file whose path has this number, or its fault with the line of that fault.
    pub fn lines_of(&mut self, number: usize, bytes: &[u8]) -> Result<FileLines, (u64, PpKind)>
        ensures ok { IfOk result (λ lines. LexesFile bytes.now (Ok lines)) }
        ensures err { IfErr result (λ f. (f.1 ≡ RanOut) ⊎ IsUnlexed bytes.now f.0 f.1) }
    {
        let made = match self.known(number, bytes) {
            Some(lines) => lines.share(),
            None => {
                let lines = lexed(self.alloc, bytes)?;
                self.with_new(number, bytes, lines)
            }
        };
        match made {
            Ok(lines) => Ok(lines),
            Err(NoMemory) => Err((0, PpKind::NoMemory)),
        }
    }
}

#[cfg(test)]
mod tests {
    use super::*;
    use std::test::Fail;

    /// Whether a file with these bytes has the lines that were cut before.
    fn are_shared(files: &mut LexedFiles, bytes: &[u8], before: &FileLines) -> bool {
        match files.lines_of(0, bytes) {
            Ok(now) => Rc::ptr_eq(&now.lines, &before.lines),
            Err(_) => false,
        }
    }

    #[test]
    fn lines_are_cut_once(rt: HostRuntime) -> Result<(), Fail> {
        let mut files = LexedFiles::new(rt.alloc());
        let Ok(lines) = files.lines_of(0, b"#define A 1\n") else {
            return Err(Fail::new("no lines"));
        };
        assert!(rt; are_shared(&mut files, b"#define A 1\n", &lines));
        assert!(rt; !are_shared(&mut files, b"#define A 2\n", &lines));
        assert!(rt; !are_shared(&mut files, b"#define A 1\n", &lines));
        Ok(())
    }
}
