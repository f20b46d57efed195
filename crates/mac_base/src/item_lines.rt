ghost use Rattle.std.specs.Prelude.{◌≡◌, ◌++◌, OnOk, codes, decimal};
ghost use Rattle.mac_base.specs.Items.{renamed};
ghost use Rattle.mac_base.specs.ItemLines.{item_of, item_line, path_in};

use crate::bytes::Bytes;
use crate::events::Event;
use crate::memory::NoMemory;
use crate::pieces::{push_bytes, push_number, push_text};

/// Appends the line of an event, whose file is one of these paths.
pub fn push_event(text: &mut Vec<u8>, paths: &[Bytes], event: &Event) -> Result<(), NoMemory>
    ensures { OnOk result (text.new.items ≡ text.old.items ++ item_line (renamed (path_in paths.now) (item_of event.now))) }
{
    match event {
        Event::Define { line, text: words } => push_item(text, b"define", *line, words.as_slice()),
        Event::Undef { line, name } => push_item(text, b"undef", *line, name.as_slice()),
        Event::Start { line, file } => push_item(text, b"start", *line, path_at(paths, *file)),
        Event::End => push_bytes(text, b"end\n"),
    }
}

/// Appends a line of a verb, a line number and words: `define LINE TEXT`, `undef LINE NAME`, `start LINE PATH`.
pub fn push_item(text: &mut Vec<u8>, verb: &[u8], line: u64, words: &[u8]) -> Result<(), NoMemory>
    ensures { OnOk result (text.new.items ≡ text.old.items ++ (verb.now ++ codes " " ++ decimal line ++ codes " " ++ words.now ++ codes "\n")) }
{
    push_bytes(text, verb)?;
    push_number(text, line)?;
    push_text(text, words)?;
    text.push(b'\n')?;
    Ok(())
}

/// The path of a number, which is empty where there is none.
pub fn path_at(paths: &[Bytes], number: u32) -> &[u8]
    ensures { result.now ≡ path_in paths.now number }
{
    match paths.get(number as usize) {
        Some(path) => path.as_slice(),
        None => &[],
    }
}
