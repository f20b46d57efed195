use mac_base::{Bytes, Paths};
use pp_tokens::Tokens;
use std::marker::Model;

/// A macro definition (C17 6.10.3).
#[derive(Debug, Drop)]
pub struct Def {
    /// The name of the macro.
    pub name: Bytes,
    /// The names of the parameters. An object-like macro has none of them, not even an empty list.
    pub params: Option<Paths>,
    /// Whether the parameter list ends in `...`.
    pub variadic: bool,
    /// The replacement list. White space before its first token is no part of it.
    pub body: Tokens,
}

impl Model for Def {
    ghost use Rattle.macro_table.specs.Definitions.{DefValue};

    ghost Value = { DefValue };

    ghost view = { λ d. record { name = d.name; params = d.params; variadic = d.variadic; body = d.body } };
}
