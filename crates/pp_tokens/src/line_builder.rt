ghost use Rattle.std.specs.Prelude.{◌≡◌, List, [], ◌∷◌, IfOk, OnOk};
ghost use Rattle.pp_tokens.specs.Cleaning.{Char, bytes_of};
ghost use Rattle.pp_tokens.specs.Cut.{no_page, lines_of, header_may_stand, line_of, put};
ghost use Rattle.pp_tokens.specs.declared.piece.PieceKind.TheVariants.{Blank, LineEnd, Word};

use crate::line::{Line, Lines};
use crate::token::{Kind, Token, Tokens};
use mac_base::{Bytes, NoMemory};
use std::alloc::Global;
use std::marker::Model;
use std::mem;

/// The whole lines of tokens, and the line that is begun.
#[derive(Drop)]
pub struct LineBuilder {
    lines: Lines,
    number: u64,
    tokens: Tokens,
    space: bool,
}

impl Model for LineBuilder {
    ghost use Rattle.pp_tokens.specs.Cut.{LinesSoFar};

    ghost Value = { LinesSoFar };

    ghost view = { λ p. record { lines = p.lines; number = p.number; tokens = p.tokens; space = p.space } };
}

impl LineBuilder {
    /// The builder before the first piece.
    pub fn new(alloc: Global) -> LineBuilder
        ensures { result ≡ no_page }
    {
        LineBuilder {
            lines: Lines::new(alloc),
            number: 0,
            tokens: Tokens::new(alloc),
            space: false,
        }
    }

    /// Whether the line so far is `#` and `include`, so that a header name may follow.
    pub fn header_may_stand(&self) -> bool
        ensures { result ≡ header_may_stand self.now.tokens }
    {
        match self.tokens.as_slice() {
            [hash, include] => begins_include(hash, include),
            _ => false,
        }
    }

    /// White space comes next.
    pub fn blank(&mut self)
        ensures { self.new ≡ put self.old Blank [] }
    {
        self.space = true;
    }

    /// The line ends here.
    pub fn end_line(&mut self, alloc: Global) -> Result<(), NoMemory>
        ensures { OnOk result (self.new ≡ put self.old LineEnd []) }
    {
        let tokens = mem::replace(&mut self.tokens, Tokens::new(alloc));
        if tokens.len() > 0 {
            self.lines.push(Line {
                number: self.number,
                tokens,
            })?;
        }
        self.number = 0;
        self.space = false;
        Ok(())
    }

    /// A token comes next, on that line.
    pub fn word(&mut self, kind: Kind, text: Bytes, line: u64) -> Result<(), NoMemory>
        ensures { OnOk result ((chars : List Char) → line ≡ line_of chars → text ≡ bytes_of chars → self.new ≡ put self.old (Word kind) chars) }
    {
        let space = self.space && self.tokens.len() > 0;
        if self.tokens.len() == 0 {
            self.number = line;
        }
        self.space = false;
        self.tokens.push(Token { kind, text, space })?;
        Ok(())
    }

    /// The lines, where the text ends here.
    pub fn into_lines(self, alloc: Global) -> Result<Lines, NoMemory>
        ensures { IfOk result (λ lines. lines ≡ lines_of self) }
    {
        let mut builder = self;
        builder.end_line(alloc)?;
        let LineBuilder {
            lines,
            number: _,
            tokens: _,
            space: _,
        } = builder;
        Ok(lines)
    }

    /// The tokens of the line that is begun.
    pub fn into_tokens(self) -> Tokens
        ensures { result ≡ self.tokens }
    {
        let LineBuilder {
            lines: _,
            number: _,
            tokens,
            space: _,
        } = self;
        tokens
    }
}

/// Whether the two are `#` and `include`.
fn begins_include(hash: &Token, include: &Token) -> bool
    ensures { result ≡ header_may_stand (hash.now ∷ include.now ∷ []) }
{
    hash.is_hash() && include.is_spelled(b"include")
}
