// The list of commands: what each is called, which options it takes, and its operands. `--help` and the reading of
// words follow from it.
ghost use Rattle.std.specs.Prelude.{◌≡◌};
ghost use Rattle.std.specs.Str.{bytes_eq};
ghost use Rattle.dwmac_run.specs.Commands as spec;

/// A command, by its verb.
#[derive(Clone, Copy, Debug, PartialEq, Eq)]
pub enum Verb {
    /// The report on the macro unit at the start of a file.
    Raw,
    /// The report on the macro unit at an offset of a file's `.debug_macro`.
    Unit,
    /// The macro information of all roots of a file.
    Dump,
    /// The definition of a name at a position in a file.
    Info,
    /// All definitions at a position in a file.
    List,
    /// What a text expands to at a position in a file.
    Expand,
    /// A single level of that.
    Once,
    /// The events of a translation unit.
    Events,
    /// The object of a translation unit, which is written to a file.
    Record,
    /// How the program is called.
    Help,
    /// Which program it is.
    Version,
}

/// The commands in the order in which `--help` prints them.
pub const VERBS: [Verb; 11] = [
    Verb::Raw,
    Verb::Unit,
    Verb::Dump,
    Verb::Info,
    Verb::List,
    Verb::Expand,
    Verb::Once,
    Verb::Events,
    Verb::Record,
    Verb::Help,
    Verb::Version,
];

/// An operand of a command: one word.
#[derive(Clone, Copy, Debug, PartialEq, Eq)]
pub enum Operand {
    /// A file of the shelf.
    File,
    /// An offset: `0x` and hexadecimal digits.
    Offset,
    /// A position in a file.
    Position,
    /// The name of a macro.
    Name,
    /// Any text.
    Text,
    /// The primary source file of a translation unit.
    Source,
}

/// An option of a command.
#[derive(Clone, Copy, Debug, PartialEq, Eq)]
pub enum CommandOption {
    /// `-I`: a folder for headers.
    Folder,
    /// `-D`: a definition before the primary source file.
    Define,
    /// `-U`: a name that is no macro before the primary source file.
    Undef,
    /// `--strx`: strings are referred to by their indexes.
    Strx,
    /// `--dwarf64`: offsets have eight bytes.
    Wide,
    /// `-o`: the file that is written.
    Output,
}

/// How often an option of a command is given.
#[derive(Clone, Copy, Debug, PartialEq, Eq)]
pub enum Often {
    /// Any number of times.
    Any,
    /// At most once.
    AtMostOnce,
    /// Exactly once.
    ExactlyOnce,
}

impl Often {
    ghost use Rattle.dwmac_run.specs.Commands.{may_repeat};

    /// Whether an option may be given again.
    pub fn may_repeat(self) -> bool
        ensures { result ≡ may_repeat self }
    {
        match self {
            Often::Any => true,
            Often::AtMostOnce => false,
            Often::ExactlyOnce => false,
        }
    }
}

/// An option as a word, what `--help` calls the next word, where it takes that, and how often it is given.
#[derive(Clone, Copy)]
pub struct OptionRow {
    pub word: &'static [u8],
    pub argument: Option<&'static [u8]>,
    pub often: Often,
}

/// What may follow the verb of a command: options in any place, and the operands in order.
#[derive(Clone, Copy)]
pub struct CommandRow {
    pub word: &'static [u8],
    pub options: &'static [CommandOption],
    pub operands: &'static [Operand],
}

impl Verb {
    ghost use Rattle.dwmac_run.specs.Commands.{row_of, row_seen};

    /// The row of the command in the list of commands.
    pub fn row(self) -> CommandRow
        ensures { row_seen result ≡ row_of self }
    {
        use CommandOption::{Define, Folder, Output, Strx, Undef, Wide};
        use Operand::{File, Name, Offset, Position, Source, Text};
        let (word, options, operands): (&[u8], &[CommandOption], &[Operand]) = match self {
            Verb::Raw => (b"raw", &[], &[File]),
            Verb::Unit => (b"unit", &[], &[File, Offset]),
            Verb::Dump => (b"dump", &[], &[File]),
            Verb::Info => (b"info", &[], &[File, Position, Name]),
            Verb::List => (b"list", &[], &[File, Position]),
            Verb::Expand => (b"expand", &[], &[File, Position, Text]),
            Verb::Once => (b"once", &[], &[File, Position, Text]),
            Verb::Events => (b"events", &[Folder, Define, Undef], &[Source]),
            Verb::Record => (
                b"record",
                &[Folder, Define, Undef, Strx, Wide, Output],
                &[Source],
            ),
            Verb::Help => (b"--help", &[], &[]),
            Verb::Version => (b"--version", &[], &[]),
        };
        CommandRow {
            word,
            options,
            operands,
        }
    }
}

impl CommandOption {
    ghost use Rattle.dwmac_run.specs.Commands.{option_form, option_form_seen};

    /// The row of the option in the list of options.
    pub fn row(self) -> OptionRow
        ensures { option_form_seen result ≡ option_form self }
    {
        use Often::{Any, AtMostOnce, ExactlyOnce};
        let (word, argument, often): (&[u8], Option<&[u8]>, Often) = match self {
            CommandOption::Folder => (b"-I", Some(b"DIR"), Any),
            CommandOption::Define => (b"-D", Some(b"DEF"), Any),
            CommandOption::Undef => (b"-U", Some(b"NAME"), Any),
            CommandOption::Strx => (b"--strx", None, AtMostOnce),
            CommandOption::Wide => (b"--dwarf64", None, AtMostOnce),
            CommandOption::Output => (b"-o", Some(b"FILE"), ExactlyOnce),
        };
        OptionRow {
            word,
            argument,
            often,
        }
    }
}

impl Operand {
    ghost use Rattle.dwmac_run.specs.Commands.{operand_help};

    /// What `--help` prints for it.
    pub fn help(self) -> &'static [u8]
        ensures { result.now ≡ operand_help self }
    {
        match self {
            Operand::File => b" FILE",
            Operand::Offset => b" OFF",
            Operand::Position => b" POS",
            Operand::Name => b" NAME",
            Operand::Text => b" TEXT",
            Operand::Source => b" SRC",
        }
    }
}

/// The command whose verb a word is.
pub fn verb_of(word: &[u8]) -> Option<Verb>
    ensures { result ≡ spec.verb_of word.now }
{
    verb_among(&VERBS, word)
}

/// The command among these whose verb a word is.
fn verb_among(verbs: &[Verb], word: &[u8]) -> Option<Verb>
    ensures { result ≡ spec.verb_among verbs.now word.now }
{
    for verb in verbs {
        if word == verb.row().word {
            return Some(*verb);
        }
    }
    None
}

/// The option among these that a word is.
pub fn option_of(options: &[CommandOption], word: &[u8]) -> Option<CommandOption>
    ensures { result ≡ spec.option_of options.now word.now }
{
    for option in options {
        if word == option.row().word {
            return Some(*option);
        }
    }
    None
}
