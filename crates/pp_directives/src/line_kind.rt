ghost use Rattle.std.specs.Prelude.{◌≡◌, IfOk};
ghost use Rattle.pp_directives.specs.Directives.{first_name, directive_named, directive_after, directive_of};

use crate::directive::Directive;
use crate::directive_name::{DirectiveName, word_of};
use mac_base::{Bytes, NoMemory};
use pp_tokens::{Line, Token};

/// What a line is (C17 6.10). It is a directive where its first token is `#`, or `%:`.
pub fn directive_of(line: &Line) -> Result<Directive, NoMemory>
    ensures { IfOk result (λ directive. directive ≡ directive_of line.now.tokens) }
{
    match line.tokens.as_slice() {
        [hash, after @ ..] if hash.is_hash() => directive_after(after),
        _ => Ok(Directive::Text),
    }
}

/// The directive after its `#`.
fn directive_after(tokens: &[Token]) -> Result<Directive, NoMemory>
    ensures { IfOk result (λ directive. directive ≡ directive_after tokens.now) }
{
    match tokens {
        [name, after @ ..] => directive_named(word_of(name.text.as_slice()), after),
        [] => Ok(Directive::Null),
    }
}

/// The directive of this name, before these tokens.
fn directive_named(word: DirectiveName, after: &[Token]) -> Result<Directive, NoMemory>
    ensures { IfOk result (λ directive. directive ≡ directive_named word after.now) }
{
    Ok(match word {
        DirectiveName::If => Directive::If,
        DirectiveName::Ifdef => Directive::Ifdef(first_name(after)?),
        DirectiveName::Ifndef => Directive::Ifndef(first_name(after)?),
        DirectiveName::Elif => Directive::Elif,
        DirectiveName::Else => Directive::Else,
        DirectiveName::Endif => Directive::Endif,
        DirectiveName::Include => Directive::Include,
        DirectiveName::Define => Directive::Define,
        DirectiveName::Undef => Directive::Undef(first_name(after)?),
        DirectiveName::Line => Directive::LineNumber,
        DirectiveName::Error => Directive::Error,
        DirectiveName::Pragma => Directive::Pragma,
        DirectiveName::Other => Directive::Unknown,
    })
}

/// The identifier that comes first, if one does.
fn first_name(tokens: &[Token]) -> Result<Option<Bytes>, NoMemory>
    ensures { IfOk result (λ name. name ≡ first_name tokens.now) }
{
    match tokens {
        [first, ..] if first.is_identifier() => Ok(Some(first.text.copy()?)),
        _ => Ok(None),
    }
}
