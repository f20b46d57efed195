ghost use Rattle.std.specs.Prelude.{◌≡◌};
ghost use Rattle.pp_directives.specs.Directives.{word_of};

use crate::spelled::is_text;

/// The name of a directive (C17 6.10 p1).
#[derive(Clone, Copy, Debug, PartialEq, Eq)]
pub enum DirectiveName {
    If,
    Ifdef,
    Ifndef,
    Elif,
    Else,
    Endif,
    Include,
    Define,
    Undef,
    Line,
    Error,
    Pragma,
    /// No directive's.
    Other,
}

/// The directive that has this name.
pub fn word_of(name: &[u8]) -> DirectiveName
    ensures { result ≡ word_of name.now }
{
    match name {
        _ if is_text(name, b"if") => DirectiveName::If,
        _ if is_text(name, b"ifdef") => DirectiveName::Ifdef,
        _ if is_text(name, b"ifndef") => DirectiveName::Ifndef,
        _ if is_text(name, b"elif") => DirectiveName::Elif,
        _ if is_text(name, b"else") => DirectiveName::Else,
        _ if is_text(name, b"endif") => DirectiveName::Endif,
        _ if is_text(name, b"include") => DirectiveName::Include,
        _ if is_text(name, b"define") => DirectiveName::Define,
        _ if is_text(name, b"undef") => DirectiveName::Undef,
        _ if is_text(name, b"line") => DirectiveName::Line,
        _ if is_text(name, b"error") => DirectiveName::Error,
        _ if is_text(name, b"pragma") => DirectiveName::Pragma,
        _ => DirectiveName::Other,
    }
}
