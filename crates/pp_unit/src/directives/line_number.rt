ghost use Rattle.std.specs.Prelude.{◌≡◌};
ghost use Rattle.pp_unit.specs.Seen.{macros};
ghost use Rattle.pp_unit.specs.Recorded.{ComesTo};
ghost use Rattle.pp_unit.specs.LineNumbers.{is_line_number, is_plain_string, is_line, HasLine};

use crate::event_log::EventLog;
use crate::fault::PpKind;
use macro_expand::Here;
use pp_tokens::{Kind, Token, Tokens};

/// The largest number after `#line` (C17 6.10.4 p3).
const LINE_LIMIT: u64 = 2_147_483_647;

/// A digit sequence that is neither 0 nor too large.
fn is_line_number(text: &[u8]) -> bool
    ensures { result ≡ is_line_number text.now }
{
    let mut number: u64 = 0;
    for byte in text {
        if *byte < b'0' || *byte > b'9' {
            return false;
        }
        number = 10 * number + u64::from(*byte - b'0');
        if number > LINE_LIMIT {
            return false;
        }
    }
    number > 0
}

/// A string literal without a prefix.
pub fn is_plain_string(token: &Token) -> bool
    ensures { result ≡ is_plain_string token.now }
{
    token.kind == Kind::Str && matches!(token.text.as_slice(), [b'"', ..])
}

/// Whether these are operands of `#line` (C17 6.10.4 p3 and p4).
fn is_line(tokens: &[Token]) -> bool
    ensures { result ≡ is_line tokens.now }
{
    match tokens {
        [number] => is_line_number(number.text.as_slice()),
        [number, file] => is_line_number(number.text.as_slice()) && is_plain_string(file),
        _ => false,
    }
}

/// A `#line`, which changes nothing; its operands are right as they are or when they are expanded.
pub fn follow_line(log: EventLog, here: &Here, tokens: &Tokens) -> Result<EventLog, PpKind>
    ensures { ComesTo (HasLine (macros log) here.now tokens.now log) result }
{
    if is_line(tokens.as_slice()) {
        return Ok(log);
    }
    let expanded = log.expand(here, tokens)?;
    if is_line(expanded.as_slice()) {
        Ok(log)
    } else {
        Err(PpKind::BadLine)
    }
}
