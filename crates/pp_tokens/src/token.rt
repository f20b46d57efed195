ghost use Rattle.std.specs.Prelude.{◌≡◌, List, [], ◌∷◌, ◌++◌, length, IfOk, OnOk, OnErr};
ghost use Rattle.pp_tokens.specs.declared.token.Token.{Token};
ghost use Rattle.pp_tokens.specs.Tokens.{is_identifier, is_punctuator, is_lone_quote, is_spelled, is_hash, is_paste};

use mac_base::{Bytes, NoMemory};
use std::alloc::Global;
use std::marker::Model;

/// The kinds of preprocessing tokens (C17 6.4), and a quote that nothing closes.
#[derive(Clone, Copy, Debug, PartialEq, Eq)]
pub enum Kind {
    /// Letters, digits, `_`, `$` and the bytes from 128 on, not a digit first.
    Identifier,
    /// A preprocessing number (6.4.8), which `$` and the bytes from 128 on continue too.
    Number,
    /// A character constant (6.4.4.4).
    Char,
    /// A string literal (6.4.5).
    Str,
    /// A punctuator (6.4.6), digraphs among them.
    Punct,
    /// A header name (6.4.7).
    Header,
    /// A quote that is not closed on its line, or the first of `''`.
    LoneQuote,
    /// Any other byte.
    Other,
}

/// A preprocessing token.
#[derive(Debug, Drop)]
pub struct Token {
    pub kind: Kind,
    /// The bytes of it after phases 1 and 2.
    pub text: Bytes,
    /// Whether white space is before it on its line. The first of a line has false.
    pub space: bool,
}

impl Token {
    /// A token of its own with the same fields.
    pub fn copy(&self) -> Result<Token, NoMemory>
        ensures { IfOk result (λ copied. copied ≡ self.now) }
    {
        Ok(Token {
            kind: self.kind,
            text: self.text.copy()?,
            space: self.space,
        })
    }
}

impl Token {
    /// An identifier (C17 6.4.2).
    pub fn is_identifier(&self) -> bool
        ensures { result ≡ is_identifier self.now }
    {
        matches!(self.kind, Kind::Identifier)
    }

    /// A punctuator (C17 6.4.6).
    pub fn is_punctuator(&self) -> bool
        ensures { result ≡ is_punctuator self.now }
    {
        matches!(self.kind, Kind::Punct)
    }

    /// A quote that nothing closes.
    pub fn is_lone_quote(&self) -> bool
        ensures { result ≡ is_lone_quote self.now }
    {
        matches!(self.kind, Kind::LoneQuote)
    }

    /// Whether the token has this spelling.
    pub fn is_spelled(&self, spelling: &[u8]) -> bool
        ensures { result ≡ is_spelled spelling.now self.now }
    {
        self.text.as_slice() == spelling
    }

    /// `#`, or `%:` (C17 6.4.6 p3).
    pub fn is_hash(&self) -> bool
        ensures { result ≡ is_hash self.now }
    {
        self.is_spelled(b"#") || self.is_spelled(b"%:")
    }

    /// `##`, or `%:%:` (C17 6.4.6 p3).
    pub fn is_paste(&self) -> bool
        ensures { result ≡ is_paste self.now }
    {
        self.is_spelled(b"##") || self.is_spelled(b"%:%:")
    }
}

/// A list of tokens.
#[derive(Debug, Drop)]
pub struct Tokens {
    items: Vec<Token>,
}

impl Model for Tokens {
    ghost Value = { List Token };

    ghost view = { λ t. t.items.items };
}

impl Tokens {
    /// No tokens. Takes no memory.
    pub fn new(alloc: Global) -> Tokens
        ensures { result ≡ [] }
    {
        Tokens {
            items: Vec::new(alloc),
        }
    }

    /// No tokens, with room for so many.
    pub fn with_capacity(alloc: Global, count: usize) -> Result<Tokens, NoMemory>
        ensures { IfOk result (λ made. made ≡ []) }
    {
        Ok(Tokens {
            items: Vec::with_capacity(alloc, count)?,
        })
    }

    /// The same tokens, without taking memory.
    pub fn from_vec(items: Vec<Token>) -> Tokens
        ensures { result ≡ items.items }
    {
        Tokens { items }
    }

    /// The same tokens, without taking memory.
    pub fn into_vec(self) -> Vec<Token>
        ensures { result.items ≡ self }
    {
        let Tokens { items } = self;
        items
    }

    /// A list of its own with these tokens.
    pub fn from_slice(alloc: Global, tokens: &[Token]) -> Result<Tokens, NoMemory>
        ensures { IfOk result (λ made. made ≡ tokens.now) }
    {
        let mut made = Tokens::with_capacity(alloc, tokens.len())?;
        for token in tokens {
            made.push(token.copy()?)?;
        }
        Ok(made)
    }

    /// Puts a token at the end.
    pub fn push(&mut self, x: Token) -> Result<(), NoMemory>
        ensures ok { OnOk result (self.new ≡ self.old ++ x ∷ []) }
        ensures err { OnErr result (self.new ≡ self.old) }
    {
        self.items.push(x)?;
        Ok(())
    }

    /// How many tokens there are.
    pub fn len(&self) -> usize
        ensures { result ≡ length self.now }
    {
        self.items.len()
    }

    /// The tokens in order.
    pub fn as_slice(&self) -> &[Token]
        ensures { result.now ≡ self.now }
    {
        self.items.as_slice()
    }

    /// A list of its own with the same tokens.
    pub fn copy(&self) -> Result<Tokens, NoMemory>
        ensures { IfOk result (λ copied. copied ≡ self.now) }
    {
        Tokens::from_slice(*self.items.allocator(), self.items.as_slice())
    }
}
