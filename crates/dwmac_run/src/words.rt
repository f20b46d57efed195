// The words after a verb: what its options take, and its operands.
ghost use Rattle.std.specs.Prelude.{◌≡◌, ◌∷◌, ℕ, List, Some, IfOk, OnOk};
ghost use Rattle.dwmac_run.specs.Words as spec;
ghost use Rattle.dwmac_run.specs.Commands.{option_of};
ghost use Rattle.dwmac_run.specs.Expecting.{words_next};

use crate::commands::{CommandOption, option_of};
use mac_base::{Bytes, NoMemory, Paths};
use pp_unit::{Command, Commands};
use std::alloc::Global;

/// The words after a verb, by what they are.
#[derive(Drop)]
pub struct SplitWords {
    /// The words of `-I`, in order.
    pub folders: Paths,
    /// The words of `-D` and `-U`, in order.
    pub macros: Commands,
    /// The words that no option takes, in order.
    pub operands: Paths,
    /// The word of `-o`.
    pub output: Option<Bytes>,
    /// Whether `--strx` was given.
    pub strx: bool,
    /// Whether `--dwarf64` was given.
    pub wide: bool,
}

/// What a word is that no option takes.
#[derive(Clone, Copy)]
pub enum WordKind {
    /// An operand.
    Operand,
    /// An option that takes no word.
    Switch(CommandOption),
    /// An option that takes the next word.
    Takes(CommandOption),
    /// An option that was given before and may not be given again.
    Repeated,
}

/// What the next word is: one of its own, or what an option takes.
#[derive(Clone, Copy)]
pub enum Expected {
    Any,
    Taken(CommandOption),
}

/// Splits the words after a verb by the options that its command takes, which are allowed in any place. None where a
/// word that an option takes is missing, is empty or has a byte 0, or an option is given too often.
pub fn split_words(
    alloc: Global,
    options: &[CommandOption],
    words: &[Bytes],
) -> Result<Option<SplitWords>, NoMemory>
    ensures { IfOk result (λ read. read ≡ spec.split_words options.now spec.no_words words.now) }
{
    let mut read = SplitWords {
        folders: Paths::new(alloc),
        macros: Commands::new(alloc),
        operands: Paths::new(alloc),
        output: None,
        strx: false,
        wide: false,
    };
    let mut expected = Expected::Any;
    for word in words {
        let next = match expected {
            Expected::Any => add_any(&mut read, options, word)?,
            Expected::Taken(option) => add_taken(&mut read, option, word)?,
        };
        match next {
            Some(next) => expected = next,
            None => return Ok(None),
        }
    }
    match expected {
        Expected::Any => Ok(Some(read)),
        Expected::Taken(_) => Ok(None),
    }
}

/// Reads a word that no option takes: an option, or an operand. Answers what is expected of the next word; none where the
/// option is given too often.
fn add_any(
    read: &mut SplitWords,
    options: &[CommandOption],
    word: &Bytes,
) -> Result<Option<Expected>, NoMemory>
    ensures { IfOk result (λ next. (words : List (List ℕ)) → spec.split_words options.now read.old (word.now ∷ words) ≡ words_next options.now next read.new words) }
{
    match kind_of(read, options, word.as_slice()) {
        WordKind::Operand => {
            read.operands.push(word.copy()?)?;
            Ok(Some(Expected::Any))
        }
        WordKind::Switch(option) => {
            add_switch(read, option);
            Ok(Some(Expected::Any))
        }
        WordKind::Takes(option) => Ok(Some(Expected::Taken(option))),
        WordKind::Repeated => Ok(None),
    }
}

/// What a word is that no option takes.
fn kind_of(read: &SplitWords, options: &[CommandOption], word: &[u8]) -> WordKind
    ensures { result ≡ spec.kind_by (option_of options.now word.now) read.now }
{
    match option_of(options, word) {
        Some(option) => option_kind(read, option),
        None => WordKind::Operand,
    }
}

/// What an option is after these words.
fn option_kind(read: &SplitWords, option: CommandOption) -> WordKind
    ensures { result ≡ spec.option_kind option read.now }
{
    let row = option.row();
    if !row.often.may_repeat() && is_set(read, option) {
        return WordKind::Repeated;
    }
    match row.argument {
        Some(_) => WordKind::Takes(option),
        None => WordKind::Switch(option),
    }
}

/// Whether an option has set what it sets.
fn is_set(read: &SplitWords, option: CommandOption) -> bool
    ensures { result ≡ spec.is_set option read.now }
{
    match option {
        CommandOption::Folder => false,
        CommandOption::Define => false,
        CommandOption::Undef => false,
        CommandOption::Strx => read.strx,
        CommandOption::Wide => read.wide,
        CommandOption::Output => read.output.is_some(),
    }
}

/// Keeps an option that takes no word.
fn add_switch(read: &mut SplitWords, option: CommandOption)
    ensures { read.new ≡ spec.with_switch option read.old }
{
    match option {
        CommandOption::Strx => read.strx = true,
        CommandOption::Wide => read.wide = true,
        _ => (),
    }
}

/// Keeps the word that an option takes. Any word may follow. None where it is empty or has a byte 0.
fn add_taken(
    read: &mut SplitWords,
    option: CommandOption,
    word: &Bytes,
) -> Result<Option<Expected>, NoMemory>
    ensures { IfOk result (λ next. (options : List CommandOption) (words : List (List ℕ)) → spec.split_taken options option read.old (word.now ∷ words) ≡ words_next options next read.new words) }
{
    if !is_name_word(word.as_slice()) {
        return Ok(None);
    }
    keep(read, option, word.copy()?)?;
    Ok(Some(Expected::Any))
}

/// Keeps the word that an option takes.
fn keep(read: &mut SplitWords, option: CommandOption, word: Bytes) -> Result<(), NoMemory>
    ensures { OnOk result (read.new ≡ spec.with_word option read.old word) }
{
    match option {
        CommandOption::Folder => read.folders.push(word)?,
        CommandOption::Define => read.macros.push(Command::Define(word))?,
        CommandOption::Undef => read.macros.push(Command::Undef(word))?,
        CommandOption::Output => read.output = Some(word),
        _ => (),
    }
    Ok(())
}

/// Whether a word can name a file: it is not empty, has no byte 0 and doesn't begin with `-`.
pub fn is_file_word(word: &[u8]) -> bool
    ensures { result ≡ spec.is_file_word word.now }
{
    match word {
        [] => false,
        [first, ..] => *first != b'-' && !word.contains(&0),
    }
}

/// Whether a word can be a name, or what an option takes: it is not empty and has no byte 0.
pub fn is_name_word(word: &[u8]) -> bool
    ensures { result ≡ spec.is_name_word word.now }
{
    match word {
        [] => false,
        _ => !word.contains(&0),
    }
}
