ghost use Rattle.std.specs.Prelude.{◌≡◌};
ghost use Rattle.mac_base.specs.SectionBytes.{bytes_of};
ghost use Rattle.line_names.specs.Entries.{tables_of, tables_in};

use mac_base::Sections;
use string_sections::Strings;

/// The sections of line tables. Whoever reads many tables makes it once, since each section of strings is searched for
/// its last NUL.
#[derive(Drop)]
pub struct LineTables<'a> {
    /// `.debug_line`.
    pub lines: &'a [u8],
    /// `.debug_str`.
    pub strs: Strings<'a>,
    /// `.debug_line_str`.
    pub line_strs: Strings<'a>,
}

impl<'a> LineTables<'a> {
    /// Those of a file.
    pub fn new(s: &Sections<'a>) -> LineTables<'a>
        ensures { tables_of result ≡ tables_in (bytes_of s.now) }
    {
        LineTables {
            lines: s.lines,
            strs: Strings::new(s.strs),
            line_strs: Strings::new(s.line_strs),
        }
    }
}
