ghost use Rattle.std.specs.Prelude.{◌≡◌, ◌++◌, IfOk, OnOk};
ghost use Rattle.std.specs.List.{flat_map};
ghost use Rattle.dwmac_run.specs.Help as spec;
ghost use Rattle.dwmac_run.specs.Commands.{row_seen, option_form_seen, operand_help};

use crate::commands::{CommandOption, CommandRow, Often, Operand, OptionRow, VERBS, Verb};
use mac_base::{Bytes, NoMemory};
use std::alloc::Global;

/// How the program is called: a line for each command, in the order of the list of commands.
pub fn help_text(alloc: Global) -> Result<Bytes, NoMemory>
    ensures { IfOk result (λ text. text ≡ spec.help_text) }
{
    let mut text = Vec::new(alloc);
    push_lines(&mut text, &VERBS)?;
    text.extend_from_slice(b"The words of -I, -D, -U and -o stand apart: -D X=1\n")?;
    Ok(Bytes::from_vec(text))
}

/// Which program it is.
pub fn version_text(alloc: Global) -> Result<Bytes, NoMemory>
    ensures { IfOk result (λ text. text ≡ spec.version_text) }
{
    Bytes::from_slice(alloc, b"dwmac 0.1.0\n")
}

/// Appends the lines of commands.
fn push_lines(text: &mut Vec<u8>, verbs: &[Verb]) -> Result<(), NoMemory>
    ensures { OnOk result (text.new.items ≡ text.old.items ++ spec.help_lines spec.first_margin verbs.now) }
{
    let mut margin = b"usage: ".as_slice();
    for verb in verbs {
        text.extend_from_slice(margin)?;
        push_line(text, verb.row())?;
        margin = b"       ".as_slice();
    }
    Ok(())
}

/// Appends the line of a command.
fn push_line(text: &mut Vec<u8>, row: CommandRow) -> Result<(), NoMemory>
    ensures { OnOk result (text.new.items ≡ text.old.items ++ spec.help_line (row_seen row)) }
{
    text.extend_from_slice(b"dwmac ")?;
    text.extend_from_slice(row.word)?;
    push_options(text, row.options)?;
    push_operands(text, row.operands)?;
    text.push(b'\n')?;
    Ok(())
}

fn push_options(text: &mut Vec<u8>, options: &[CommandOption]) -> Result<(), NoMemory>
    ensures { OnOk result (text.new.items ≡ text.old.items ++ flat_map spec.option_help options.now) }
{
    for option in options {
        push_option(text, option.row())?;
    }
    Ok(())
}

/// Appends an option.
fn push_option(text: &mut Vec<u8>, row: OptionRow) -> Result<(), NoMemory>
    ensures { OnOk result (text.new.items ≡ text.old.items ++ spec.form_help (option_form_seen row)) }
{
    text.extend_from_slice(before_option(row.often))?;
    text.extend_from_slice(row.word)?;
    if let Some(name) = row.argument {
        text.push(b' ')?;
        text.extend_from_slice(name)?;
    }
    text.extend_from_slice(after_option(row.often))?;
    Ok(())
}

/// What precedes an option that is given so often.
fn before_option(often: Often) -> &'static [u8]
    ensures { result.now ≡ spec.before_option often }
{
    match often {
        Often::Any => b" [",
        Often::AtMostOnce => b" [",
        Often::ExactlyOnce => b" ",
    }
}

/// What follows it.
fn after_option(often: Often) -> &'static [u8]
    ensures { result.now ≡ spec.after_option often }
{
    match often {
        Often::Any => b"]..",
        Often::AtMostOnce => b"]",
        Often::ExactlyOnce => b"",
    }
}

fn push_operands(text: &mut Vec<u8>, operands: &[Operand]) -> Result<(), NoMemory>
    ensures { OnOk result (text.new.items ≡ text.old.items ++ flat_map operand_help operands.now) }
{
    for operand in operands {
        text.extend_from_slice(operand.help())?;
    }
    Ok(())
}
