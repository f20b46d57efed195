ghost use Rattle.std.specs.Prelude.{◌≡◌, IfOk, IfErr, OnOk, IsOk, Ok, Err, Some};
ghost use Rattle.std.specs.Option.{option_map};
ghost use Rattle.macro_opcodes.specs.Entry.{entry_of};
ghost use Rattle.macro_query.specs.Unit.{shown};

use macro_opcodes::{Operand, RawEntry};
use string_sections::{Strings, string_at};
use unit_header::{UnitFault, UnitKind};

/// A string section, and where its last string ends, which is found once.
#[derive(Drop)]
pub struct StringSection<'a> {
    bytes: &'a [u8],
    strings: Strings<'a>,
    ghost same: { strings ≡ bytes.now },
}

impl<'a> StringSection<'a> {
    /// The section with these bytes.
    pub fn new(bytes: &'a [u8]) -> StringSection<'a>
        ensures { result.bytes.now ≡ bytes.now }
    {
        StringSection {
            bytes,
            strings: Strings::new(bytes),
        }
    }

    /// The entry with the string that it names by its offset.
    pub fn show(&self, entry: RawEntry<'a>) -> Result<RawEntry<'a>, UnitFault>
        ensures ok { IfOk result (λ line. shown (Some self.now.bytes.now) (entry_of entry.entry) ≡ Ok (entry_of line)) }
        ensures err { IfErr result (λ fault. shown (Some self.now.bytes.now) (entry_of entry.entry) ≡ Err fault) }
    {
        let Operand::Str(at) = entry.operand else {
            return Ok(entry);
        };
        match string_at(self.bytes, at) {
            Ok(text) => Ok(RawEntry {
                operand: Operand::Text(text),
                ..entry
            }),
            Err(_) => Err(no_string(entry.at)),
        }
    }

    /// The same test, without going over the string.
    pub fn test(&self, entry: RawEntry<'_>) -> Result<(), UnitFault>
        ensures ok { OnOk result (IsOk (shown (Some self.now.bytes.now) (entry_of entry.entry))) }
        ensures err { IfErr result (λ fault. shown (Some self.now.bytes.now) (entry_of entry.entry) ≡ Err fault) }
    {
        let Operand::Str(at) = entry.operand else {
            return Ok(());
        };
        if self.strings.is_string(at) {
            Ok(())
        } else {
            Err(no_string(entry.at))
        }
    }
}

/// No string is at the offset that the entry at this place names.
fn no_string(at: u64) -> UnitFault
    ensures { result ≡ record { at = at; what = UnitKind.StrRange } }
{
    UnitFault {
        at,
        what: UnitKind::StrRange,
    }
}

/// The entry as it is printed: with its string, where strings are looked up.
pub fn show<'a>(
    strs: Option<&StringSection<'a>>,
    entry: RawEntry<'a>,
) -> Result<RawEntry<'a>, UnitFault>
    ensures ok { IfOk result (λ line. shown (option_map (λ s. s.now.bytes.now) strs.entry) (entry_of entry.entry) ≡ Ok (entry_of line)) }
    ensures err { IfErr result (λ fault. shown (option_map (λ s. s.now.bytes.now) strs.entry) (entry_of entry.entry) ≡ Err fault) }
{
    match strs {
        Some(strs) => strs.show(entry),
        None => Ok(entry),
    }
}

/// The same test, without going over the string.
pub fn test(strs: Option<&StringSection<'_>>, entry: RawEntry<'_>) -> Result<(), UnitFault>
    ensures ok { OnOk result (IsOk (shown (option_map (λ s. s.now.bytes.now) strs.entry) (entry_of entry.entry))) }
    ensures err { IfErr result (λ fault. shown (option_map (λ s. s.now.bytes.now) strs.entry) (entry_of entry.entry) ≡ Err fault) }
{
    match strs {
        Some(strs) => strs.test(entry),
        None => Ok(()),
    }
}
