ghost use Rattle.std.specs.Prelude.{◌≡◌, List, [], ◌∷◌, ◌++◌, length, IfOk, OnOk, OnErr};
ghost use Rattle.pp_tokens.specs.declared.line.Line.{Line};

use crate::token::Tokens;
use mac_base::NoMemory;
use std::alloc::Global;
use std::marker::Model;

/// A line of tokens. A comment that crosses lines does not end it.
#[derive(Debug, Drop)]
pub struct Line {
    /// The physical line of the first token, counted from 1.
    pub number: u64,
    /// At least one token.
    pub tokens: Tokens,
}

impl Line {
    /// A line of its own with the same fields.
    pub fn copy(&self) -> Result<Line, NoMemory>
        ensures { IfOk result (λ copied. copied ≡ self.now) }
    {
        Ok(Line {
            number: self.number,
            tokens: self.tokens.copy()?,
        })
    }
}

/// A list of lines.
#[derive(Debug, Drop)]
pub struct Lines {
    items: Vec<Line>,
}

impl Model for Lines {
    ghost Value = { List Line };

    ghost view = { λ l. l.items.items };
}

impl Lines {
    /// No lines. Takes no memory.
    pub fn new(alloc: Global) -> Lines
        ensures { result ≡ [] }
    {
        Lines {
            items: Vec::new(alloc),
        }
    }

    /// The same lines, without taking memory.
    pub fn from_vec(items: Vec<Line>) -> Lines
        ensures { result ≡ items.items }
    {
        Lines { items }
    }

    /// The same lines, without taking memory.
    pub fn into_vec(self) -> Vec<Line>
        ensures { result.items ≡ self }
    {
        let Lines { items } = self;
        items
    }

    /// Puts a line at the end.
    pub fn push(&mut self, x: Line) -> Result<(), NoMemory>
        ensures ok { OnOk result (self.new ≡ self.old ++ x ∷ []) }
        ensures err { OnErr result (self.new ≡ self.old) }
    {
        self.items.push(x)?;
        Ok(())
    }

    /// How many lines there are.
    pub fn len(&self) -> usize
        ensures { result ≡ length self.now }
    {
        self.items.len()
    }

    /// The lines in order.
    pub fn as_slice(&self) -> &[Line]
        ensures { result.now ≡ self.now }
    {
        self.items.as_slice()
    }

    /// A list of its own with the same lines.
    pub fn copy(&self) -> Result<Lines, NoMemory>
        ensures { IfOk result (λ copied. copied ≡ self.now) }
    {
        let mut items = Vec::new(*self.items.allocator());
        for line in self.items.as_slice() {
            items.push(line.copy()?)?;
        }
        Ok(Lines { items })
    }
}
