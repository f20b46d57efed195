// What the words of a command line ask for.
ghost use Rattle.std.specs.Prelude.{◌≡◌, IfOk};
ghost use Rattle.dwmac_run.specs.Command as spec;

use crate::commands::{Verb, verb_of};
use crate::operands::{Operands, read_operands};
use crate::words::{SplitWords, split_words};
use mac_base::{Bytes, NoMemory, Paths};
use object_writer::Forms;
use position_table::Position;
use pp_unit::UnitSpec;
use std::alloc::Global;

/// The most folders for headers.
const MOST_FOLDERS: usize = 255;

/// What the words of a command line ask for.
#[derive(Debug, Drop)]
pub enum Request {
    /// An answer from the bytes of a file of the shelf.
    Query {
        /// The name of the file.
        file: Bytes,
        query: Query,
    },
    /// The events of a translation unit.
    Events {
        unit: UnitSpec,
        /// The folders for headers.
        folders: Paths,
    },
    /// The object of a translation unit.
    Record {
        unit: UnitSpec,
        /// The folders for headers.
        folders: Paths,
        forms: Forms,
        /// The name of the file that is written.
        output: Bytes,
    },
    /// How the program is called.
    Help,
    /// Which program it is.
    Version,
}

/// What is asked of a file.
#[derive(Debug, Drop)]
pub enum Query {
    /// The report on the macro unit at its start.
    Raw,
    /// The report on the macro unit at this offset of its `.debug_macro`.
    Unit(u64),
    /// The macro information of all its roots.
    Dump,
    /// The definition of this name at the position.
    Info(Position, Bytes),
    /// All definitions at the position.
    List(Position),
    /// What this text expands to at the position.
    Expand(Position, Bytes),
    /// A single level of that.
    Once(Position, Bytes),
}

/// What the words ask for; none where they fit no command.
pub fn request_of(alloc: Global, words: &[Bytes]) -> Result<Option<Request>, NoMemory>
    ensures { IfOk result (λ request. request ≡ spec.request_of words.now) }
{
    match words {
        [word, others @ ..] => match verb_of(word.as_slice()) {
            Some(verb) => request_for(alloc, verb, others),
            None => Ok(None),
        },
        [] => Ok(None),
    }
}

/// What a command with these words after its verb asks for.
fn request_for(alloc: Global, verb: Verb, words: &[Bytes]) -> Result<Option<Request>, NoMemory>
    ensures { IfOk result (λ request. request ≡ spec.request_for verb words.now) }
{
    let row = verb.row();
    match split_words(alloc, row.options, words)? {
        Some(split) if split.folders.len() <= MOST_FOLDERS => {
            let read = read_operands(alloc, row.operands, split.operands.as_slice())?;
            Ok(request_by(verb, split, read))
        }
        _ => Ok(None),
    }
}

/// What a command with these words and operands asks for.
fn request_by(verb: Verb, split: SplitWords, read: Option<Operands>) -> Option<Request>
    ensures { result ≡ spec.request_by verb split read }
{
    let Operands {
        file,
        offset,
        position,
        text,
    } = read?;
    match verb {
        Verb::Raw => about(file, Some(Query::Raw)),
        Verb::Unit => about(file, unit_at(offset)),
        Verb::Dump => about(file, Some(Query::Dump)),
        Verb::Info => about(file, info_at(position, text)),
        Verb::List => about(file, list_at(position)),
        Verb::Expand => about(file, expand_at(position, text)),
        Verb::Once => about(file, once_at(position, text)),
        Verb::Events => events_of(file, split),
        Verb::Record => record_of(file, split),
        Verb::Help => Some(Request::Help),
        Verb::Version => Some(Request::Version),
    }
}

fn about(file: Option<Bytes>, query: Option<Query>) -> Option<Request>
    ensures { result ≡ spec.about file query }
{
    Some(Request::Query {
        file: file?,
        query: query?,
    })
}

fn unit_at(offset: Option<u64>) -> Option<Query>
    ensures { result ≡ spec.unit_at offset }
{
    Some(Query::Unit(offset?))
}

fn info_at(position: Option<Position>, name: Option<Bytes>) -> Option<Query>
    ensures { result ≡ spec.with_text Query.Info position name }
{
    Some(Query::Info(position?, name?))
}

fn list_at(position: Option<Position>) -> Option<Query>
    ensures { result ≡ spec.list_at position }
{
    Some(Query::List(position?))
}

fn expand_at(position: Option<Position>, text: Option<Bytes>) -> Option<Query>
    ensures { result ≡ spec.with_text Query.Expand position text }
{
    Some(Query::Expand(position?, text?))
}

fn once_at(position: Option<Position>, text: Option<Bytes>) -> Option<Query>
    ensures { result ≡ spec.with_text Query.Once position text }
{
    Some(Query::Once(position?, text?))
}

fn events_of(source: Option<Bytes>, split: SplitWords) -> Option<Request>
    ensures { result ≡ spec.events_of source split }
{
    let SplitWords {
        folders,
        macros,
        ..
    } = split;
    let unit = UnitSpec {
        source: source?,
        commands: macros,
    };
    Some(Request::Events { unit, folders })
}

fn record_of(source: Option<Bytes>, split: SplitWords) -> Option<Request>
    ensures { result ≡ spec.record_of source split.output split }
{
    let SplitWords {
        folders,
        macros,
        output,
        strx,
        wide,
        ..
    } = split;
    let unit = UnitSpec {
        source: source?,
        commands: macros,
    };
    Some(Request::Record {
        unit,
        folders,
        forms: Forms { strx, wide },
        output: output?,
    })
}
