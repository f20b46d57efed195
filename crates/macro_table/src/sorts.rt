ghost use Rattle.std.specs.Prelude.{◌≡◌};
ghost use Rattle.macro_table.specs.Definitions.{is_va_args, is_reserved, has_list};

use pp_tokens::Token;

/// `__VA_ARGS__`.
pub fn is_va_args(token: &Token) -> bool
    ensures { result ≡ is_va_args token.now }
{
    token.is_spelled(b"__VA_ARGS__")
}

/// `defined` (C17 6.10.8 p2) or `__VA_ARGS__` (6.10.3 p5), which no macro is called.
pub fn is_reserved(token: &Token) -> bool
    ensures { result ≡ is_reserved token.now }
{
    token.is_spelled(b"defined") || is_va_args(token)
}

/// Whether a parameter list follows the name: `(` with no white space before it (lparen, C17 6.10 p1).
pub fn has_list(behind: &[Token]) -> bool
    ensures { result ≡ has_list behind.now }
{
    match behind {
        [first, ..] => first.is_spelled(b"(") && !first.space,
        [] => false,
    }
}
