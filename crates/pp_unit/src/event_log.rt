pub mod lexed_files;
pub mod once_files;
pub mod path_numbers;

ghost use Rattle.std.specs.Prelude.{◌≡◌, ◌⊎◌, ◌+◌, ◌<◌, ◌≤◌, ℕ, [], ◌∷◌, ◌++◌, length, Ok, IfOk, IfErr, OnOk};
ghost use Rattle.std.specs.Option.{option_copied};
ghost use Rattle.mac_base.specs.Answers.{Answers};
ghost use Rattle.mac_base.specs.Items.{Item, Define, Undef, Start, End};
ghost use Rattle.pp_directives.specs.Defined.{is_defined, resolved};
ghost use Rattle.pp_unit.specs.declared.fault.PpKind.TheVariants.{NoMemory as RanOut};
ghost use Rattle.pp_unit.specs.Seen.{Seen, table, macros, text_in, text_length, texts_length, event_limit, text_limit, added, started, number_of, is_once, with_once};
ghost use Rattle.pp_tokens.specs.Cut.{LexesFile};
ghost use Rattle.pp_unit.specs.Stopping.{IsUnlexed};
ghost use Rattle.pp_directives.specs.declared.fault.ExprFault.TheVariants.{NoMemory as ExprRanOut};
ghost use Rattle.macro_expand.specs.Answering.{IsAnswer};
ghost use Rattle.macro_expand.specs.Rules.{ExpandsTo};
ghost use Rattle.pp_unit.specs.Walk.{AreSeen};
ghost use Rattle.pp_unit.specs.Recorded.{Admits};

use crate::event_log::lexed_files::{FileLines, LexedFiles};
use crate::event_log::once_files::OnceFiles;
use crate::event_log::path_numbers::PathNumbers;
use crate::fault::PpKind;
use mac_base::{Bytes, Event, EventList, Events, Frames, NoMemory, Place};
use mac_io::FileId;
use macro_expand::{ExpandFault, Here, expand};
use macro_table::Table;
use pp_directives::{ExprFault, is_defined, resolve_slice};
use pp_tokens::{Token, Tokens};
use std::alloc::Global;
use std::marker::Model;

/// The most events of a translation unit.
const EVENT_LIMIT: usize = 4_194_304;

/// The most bytes that all texts of definitions and names of `#undef` have together.
const TEXT_LIMIT: usize = 268_435_456;

/// What was recorded so far, with the table of macros that comes of it.
#[derive(Drop)]
pub struct EventLog {
    alloc: Global,
    list: EventList,
    /// The bytes of all texts and names.
    text: usize,
    files: PathNumbers,
    once: OnceFiles,
    lexed: LexedFiles,
    /// The places of its entries are empty: only texts count here.
    table: Table,
}

impl Model for EventLog {
    ghost use Rattle.std.specs.Prelude.{map};
    ghost use Rattle.pp_unit.specs.Seen.{Seen};
    ghost use Rattle.mac_base.specs.ItemLines.{item_of};
    ghost use Rattle.pp_unit.specs.Recorded.{IsSound};

    ghost Value = { Seen };

    ghost view = { λ r. record { items = map item_of r.list; files = r.files; once = r.once } };

    ghost invariant = { λ r. IsSound (map item_of r.list) r.files r.text r.table };
}

impl EventLog {
    /// Nothing was recorded.
    pub fn empty(alloc: Global) -> EventLog
        ensures { result ≡ record { items = []; files = []; once = [] } }
    {
        EventLog {
            alloc,
            list: EventList::new(alloc),
            text: 0,
            files: PathNumbers::new(alloc),
            once: OnceFiles::new(alloc),
            lexed: LexedFiles::new(alloc),
            table: Table::new(alloc),
        }
    }

    /// Rejects one event more that has so many bytes of text, where a limit would be exceeded.
    fn admit(&self, long: usize) -> Result<(), PpKind>
        ensures limits { (item : Item ℕ) → text_length item ≡ long → Admits self.now item result }
        ensures few { OnOk result (length self.now.items < event_limit) }
        ensures fits { OnOk result (texts_length self.now.items + long ≤ text_limit) }
    {
        if self.list.len() >= EVENT_LIMIT {
            return Err(PpKind::TooManyEvents);
        }
        if long > TEXT_LIMIT - self.text {
            return Err(PpKind::TooMuchText);
        }
        Ok(())
    }

    /// A definition of this text more.
    pub fn define(self, line: u64, text: Bytes) -> Result<EventLog, PpKind>
        ensures { Answers RanOut result (added self (Define line text)) }
    {
        let long = text.len();
        self.admit(long)?;
        let nowhere = Place {
            frames: Frames::new(self.alloc),
            line: 0,
        };
        let mut table = self.table;
        table.define(text.as_slice(), &nowhere)?;
        let mut list = self.list;
        list.push(Event::Define { line, text })?;
        Ok(EventLog {
            list,
            text: self.text + long,
            table,
            ..self
        })
    }

    /// An `#undef` of this name more.
    pub fn undef(self, line: u64, name: Bytes) -> Result<EventLog, PpKind>
        ensures { Answers RanOut result (added self (Undef line name)) }
    {
        let long = name.len();
        self.admit(long)?;
        let mut table = self.table;
        table.undef(name.as_slice());
        let mut list = self.list;
        list.push(Event::Undef { line, name })?;
        Ok(EventLog {
            list,
            text: self.text + long,
            table,
            ..self
        })
    }

    /// The file that began last ends.
    pub fn end(self) -> Result<EventLog, PpKind>
        ensures { Answers RanOut result (added self End) }
    {
        self.admit(0)?;
        let mut list = self.list;
        list.push(Event::End)?;
        Ok(EventLog { list, ..self })
    }

    /// A file begins that is included in this line.
    pub fn start(self, line: u64, path: &[u8]) -> Result<EventLog, PpKind>
        ensures { Answers RanOut result (started self line path.now) }
    {
        self.admit(0)?;
        let file = self.files.number_of(path) as u32;
        let files = self.files.with_path(path)?;
        let mut list = self.list;
        list.push(Event::Start { line, file })?;
        Ok(EventLog {
            list,
            files,
            ..self
        })
    }

    /// The number of a path, which is the next where it is not there.
    pub fn number_of(&self, path: &[u8]) -> u32
        ensures { result ≡ number_of self.now path.now }
    {
        self.files.number_of(path) as u32
    }

    /// Whether a file contributes nothing any more.
    pub fn is_once(&self, id: &FileId) -> bool
        ensures { result ≡ is_once self.now id.now }
    {
        self.once.has(id)
    }

    /// The file contributes nothing from now on.
    pub fn with_once(self, id: &FileId) -> Result<EventLog, NoMemory>
        ensures { IfOk result (λ r. r ≡ with_once self id.now) }
    {
        let once = self.once.with_file(id)?;
        Ok(EventLog { once, ..self })
    }

    /// The lines of the file of this path, or its fault with the line of that fault.
    pub fn lines_of(&mut self, path: &[u8], bytes: &[u8]) -> Result<FileLines, (u64, PpKind)>
        ensures same { self.new ≡ self.old }
        ensures ok { IfOk result (λ lines. LexesFile bytes.now (Ok lines)) }
        ensures err { IfErr result (λ f. (f.1 ≡ RanOut) ⊎ IsUnlexed bytes.now f.0 f.1) }
    {
        let number = self.files.number_of(path);
        self.lexed.lines_of(number, bytes)
    }

    /// The text of a name, where it has one.
    pub fn text_of(&self, name: &[u8]) -> Option<&[u8]>
        ensures { option_copied result ≡ text_in (table self.now) name.now }
    {
        match self.table.get(name) {
            Some(entry) => Some(entry.text.as_slice()),
            None => None,
        }
    }

    /// Whether a name is defined.
    pub fn is_defined(&self, name: &[u8]) -> bool
        ensures { result ≡ is_defined (table self.now) name.now }
    {
        is_defined(&self.table, name)
    }

    /// The tokens of a condition with each `defined` resolved.
    pub fn resolve(&self, tokens: &[Token]) -> Result<Tokens, ExprFault>
        ensures { Answers ExprRanOut result (resolved (is_defined (table self.now)) tokens.now) }
    {
        resolve_slice(self.alloc, tokens, &self.table)
    }

    /// What tokens expand to.
    pub fn expand(&self, here: &Here, tokens: &Tokens) -> Result<Tokens, ExpandFault>
        ensures { IsAnswer (ExpandsTo (macros self.now) here.now tokens.now) result }
    {
        expand(self.alloc, &self.table, here, tokens)
    }

    /// Where memory comes from.
    pub fn alloc(&self) -> Global {
        self.alloc
    }

    /// What was recorded.
    pub fn into_events(self) -> Events
        ensures { AreSeen result self }
    {
        let EventLog { list, files, .. } = self;
        Events {
            list,
            files: files.into_paths(),
        }
    }
}
