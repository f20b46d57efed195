// Why a command gives no report, and the line that tells it.
ghost use Rattle.std.specs.Prelude.{◌≡◌, [], ◌∷◌, codes};
ghost use Rattle.dwmac_run.specs.Pieces.{pieces, line_pieces, in_file, at_line};
ghost use Rattle.dwmac_run.specs.Refusals as spec;

use crate::fault_names::{
    def_name, directive_name, expr_name, info_name, lex_name, line_name, struct_name, unit_name,
};
use crate::line::{FaultLine, Piece, Words, alone, of_four, of_text, one, two};
use mac_base::Bytes;
use macro_expand::ExpandFault;
use macro_query::QueryFault;
use position_table::PosFault;
use pp_unit::{PpFault, PpKind};
use section_views::ElfFault;

/// Why a command gives no report. Faults are kept as they were found; `line` is the one place that tells them.
#[derive(Debug, Drop)]
pub enum Refusal {
    /// The shelf has no file of this name.
    NoSuchFile(Bytes),
    /// The file of this name has more bytes than a command reads.
    FileTooLong(Bytes),
    /// A query about the file of this name has this fault.
    Query(Bytes, QueryFault),
    /// A translation unit has this fault.
    TranslationUnit(PpFault),
    /// The report has more bytes than are printed.
    ReportTooLong,
    /// A section of an object has more bytes than are written.
    TooLarge,
}

impl Refusal {
    ghost use Rattle.dwmac_run.specs.Pieces.{line_pieces};
    ghost use Rattle.dwmac_run.specs.Refusals.{refusal_pieces};

    /// The line on it.
    pub fn line(&self) -> FaultLine<'_>
        ensures { line_pieces result ≡ refusal_pieces self.now }
    {
        match self {
            Refusal::NoSuchFile(file) => of_file(file.as_slice(), one(b"NoSuchFile")),
            Refusal::FileTooLong(file) => of_file(file.as_slice(), one(b"FileTooLong")),
            Refusal::Query(file, fault) => query_line(file.as_slice(), fault),
            Refusal::TranslationUnit(fault) => unit_line(fault),
            Refusal::ReportTooLong => of_text(b"ReportTooLong"),
            Refusal::TooLarge => of_text(b"TooLarge"),
        }
    }
}

/// A line on a fault of this file.
fn of_file<'f>(file: &'f [u8], words: Words<'f>) -> FaultLine<'f>
    ensures { line_pieces result ≡ in_file file.now ∷ pieces words.entry }
{
    FaultLine {
        place: Piece::File(file),
        words,
    }
}

/// The line on the fault of a query about this file.
fn query_line<'f>(file: &'f [u8], fault: &'f QueryFault) -> FaultLine<'f>
    ensures { line_pieces result ≡ spec.query_pieces file.now fault.now }
{
    match fault {
        QueryFault::Elf(fault) => of_file(file, elf_words(*fault)),
        QueryFault::Info(fault) => {
            of_file(file, part_words(b"Info", info_name(fault.what), fault.at))
        }
        QueryFault::Line(fault) => {
            of_file(file, part_words(b"Line", line_name(fault.what), fault.at))
        }
        QueryFault::Unit(fault) => {
            of_file(file, part_words(b"Unit", unit_name(fault.what), fault.at))
        }
        QueryFault::NoSuchUnit => of_file(file, one(b"NoSuchUnit")),
        QueryFault::Position(fault) => of_file(file, position_words(*fault)),
        QueryFault::Text(fault) => alone(two(b"Text", lex_name(*fault))),
        QueryFault::Expand(fault) => alone(expand_words(fault)),
        QueryFault::ReportTooLong => of_text(b"ReportTooLong"),
        QueryFault::NoMemory => of_text(b"no memory"),
    }
}

/// The part of a file that has a fault, its kind, and where it is.
fn part_words<'f>(part: &'f [u8], kind: &'f [u8], at: u64) -> Words<'f>
    ensures { pieces result ≡ spec.part_words part.now kind.now at }
{
    of_four(
        Piece::Text(part),
        Piece::Text(kind),
        Piece::Text(b"at"),
        Piece::Hex(at),
    )
}

/// A fault of a section of an ELF file.
fn section_words(kind: &[u8], number: u32) -> Words<'_>
    ensures { pieces result ≡ spec.section_words kind.now number }
{
    of_four(
        Piece::Text(b"Elf"),
        Piece::Text(kind),
        Piece::Text(b"section"),
        Piece::Decimal(u64::from(number)),
    )
}

fn elf_words<'f>(fault: ElfFault) -> Words<'f>
    ensures { pieces result ≡ spec.elf_words fault }
{
    match fault {
        ElfFault::NotElf => two(b"Elf", b"NotElf"),
        ElfFault::Class => two(b"Elf", b"Class"),
        ElfFault::Order => two(b"Elf", b"Order"),
        ElfFault::Kind => two(b"Elf", b"Kind"),
        ElfFault::Extended => two(b"Elf", b"Extended"),
        ElfFault::Table { at } => part_words(b"Elf", b"Table", at),
        ElfFault::Range { n } => section_words(b"Range", n),
        ElfFault::Name { n } => section_words(b"Name", n),
        ElfFault::Compressed { n } => section_words(b"Compressed", n),
        ElfFault::Twice { n } => section_words(b"Twice", n),
    }
}

fn position_words<'f>(fault: PosFault) -> Words<'f>
    ensures { pieces result ≡ spec.position_words fault }
{
    match fault {
        PosFault::NoSuchPosition { depth } => of_four(
            Piece::Text(b"NoSuchPosition"),
            Piece::Text(b"depth"),
            Piece::Decimal(u64::from(depth)),
            Piece::Nothing,
        ),
        PosFault::NoMemory => one(b"NoMemory"),
    }
}

fn expand_words(fault: &ExpandFault) -> Words<'_>
    ensures { pieces result ≡ spec.expand_words fault.now }
{
    match fault {
        ExpandFault::OpenCall { name } => expand_kind(b"OpenCall", name.as_slice()),
        ExpandFault::ArgCount { name, got } => of_four(
            Piece::Text(b"Expand"),
            Piece::Text(b"ArgCount"),
            Piece::Text(name.as_slice()),
            Piece::Decimal(*got),
        ),
        ExpandFault::BadPaste { left, right } => of_four(
            Piece::Text(b"Expand"),
            Piece::Text(b"BadPaste"),
            Piece::Text(left.as_slice()),
            Piece::Text(right.as_slice()),
        ),
        ExpandFault::BadString { name } => expand_kind(b"BadString", name.as_slice()),
        ExpandFault::BadDefinition { name } => expand_kind(b"BadDefinition", name.as_slice()),
        ExpandFault::LoneQuote => two(b"Expand", b"LoneQuote"),
        ExpandFault::TooLong => two(b"Expand", b"TooLong"),
        ExpandFault::NoMemory => two(b"Expand", b"NoMemory"),
    }
}

/// A fault of an expansion that names a macro.
fn expand_kind<'f>(kind: &'f [u8], name: &'f [u8]) -> Words<'f>
    ensures { pieces result ≡ codes "Expand" ∷ kind.now ∷ name.now ∷ [] }
{
    of_four(
        Piece::Text(b"Expand"),
        Piece::Text(kind),
        Piece::Text(name),
        Piece::Nothing,
    )
}

/// The line on the first fault of a translation unit.
fn unit_line(fault: &PpFault) -> FaultLine<'_>
    ensures { line_pieces result ≡ spec.unit_pieces fault.now }
{
    FaultLine {
        place: Piece::Line(file_shown(fault), fault.place.line),
        words: kind_words(&fault.what),
    }
}

/// The path of the innermost file that is open.
fn file_shown(fault: &PpFault) -> &[u8]
    ensures { result.now ≡ spec.file_shown fault.now.place.frames fault.now.path }
{
    match fault.place.frames.as_slice() {
        [] => b"<start>",
        _ => fault.path.as_slice(),
    }
}

fn kind_words(kind: &PpKind) -> Words<'_>
    ensures { pieces result ≡ spec.kind_words kind.now }
{
    match kind {
        PpKind::Lex(fault) => two(b"Lex", lex_name(*fault)),
        PpKind::Def(fault) => two(b"Def", def_name(*fault)),
        PpKind::Predefined { name } => two(b"Predefined", name.as_slice()),
        PpKind::Redefined { name } => two(b"Redefined", name.as_slice()),
        PpKind::Directive(fault) => two(b"Directive", directive_name(*fault)),
        PpKind::Expr(fault) => two(b"Expr", expr_name(*fault)),
        PpKind::Expand(fault) => expand_words(fault),
        PpKind::Struct(fault) => two(b"Struct", struct_name(*fault)),
        PpKind::NoSuchFile { name } => two(b"NoSuchFile", name.as_slice()),
        PpKind::BadInclude => one(b"BadInclude"),
        PpKind::IncludeDepth => one(b"IncludeDepth"),
        PpKind::ErrorDirective => one(b"ErrorDirective"),
        PpKind::BadLine => one(b"BadLine"),
        PpKind::SourceTooLong { name } => two(b"SourceTooLong", name.as_slice()),
        PpKind::TooManyEvents => one(b"TooManyEvents"),
        PpKind::TooMuchText => one(b"TooMuchText"),
        PpKind::StoreFault => one(b"StoreFault"),
        PpKind::NoMemory => one(b"NoMemory"),
    }
}
